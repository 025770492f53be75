//! The texts of the help.

use crate::commands::Command;

/// What the program does, in one line.
pub(crate) const ABOUT: &str = "Decides who may do what by SPKI certificates (RFC 2693)";

/// The text of the help after the list of commands.
pub(crate) const DETAILS: &str = "\
Each command reads one text on standard input, to its end, in the canonical, advanced or transport form of RFC 9804,
and writes its answer on standard output. The help of a command says more: spki check --help

Exit status:
  0  yes, or what was asked for is written
  1  no
  2  the text or the words are refused; a line says why
  3  reading or writing failed

Example, which writes (1:a3:b c):
  echo '(a \"b c\")' | spki canonical
";

/// The text that `details` returns for `canonical`. Those for the other commands follow.
const CANONICAL: &str = "\
Reads the text of one value on standard input, in any of the three forms of RFC 9804.
Writes the value in canonical form, without a line feed at the end.

Exit status:
  0  the value is written
  2  the text is refused; a line says why
  3  reading or writing failed

Example, which writes (1:a3:b c):
  echo '(a \"b c\")' | spki canonical
";

const ADVANCED: &str = "\
Reads the text of one value on standard input, in any of the three forms of RFC 9804.
Writes the value in advanced form, which is made to be read, on a line.

Exit status:
  0  the value is written
  2  the text is refused; a line says why
  3  reading or writing failed

Example, which writes (a \"b c\"):
  printf '(1:a3:b c)' | spki advanced
";

const TRANSPORT: &str = "\
Reads the text of one value on standard input, in any of the three forms of RFC 9804.
Writes the value in transport form, base64 in braces that survives mail and terminals, on a line.

Exit status:
  0  the value is written
  2  the text is refused; a line says why
  3  reading or writing failed

Example, which writes {KDE6YSk=}:
  echo '(a)' | spki transport
";

const INTERSECT: &str = "\
Reads (intersect A B) on standard input, where A and B are tags, in any of the three forms of RFC 9804.
Writes the tag of the requests that both A and B contain, in advanced form, on a line.

Exit status:
  0  the tag is written
  2  the text is refused, or the tags are too large to intersect; a line says why
  3  reading or writing failed

Example, which writes (ftp a):
  echo '(intersect (ftp) (ftp a))' | spki intersect
";

const REDUCE: &str = "\
Reads a case on standard input, as check does: see spki check --help
Writes a line for each entry of the access list: entry N and what it becomes with the certificates, as (five ..), or
entry N item J and why item J does not join. If certificate J fails a test of its own, the only line is item J and
which test. If the list is empty, the line is no entries.

Exit status:
  0  some entry becomes a (five ..)
  1  none does
  2  the text is refused, or its tags are too large to intersect; a line says why
  3  reading or writing failed

Example, which writes entry 1 (five (subject (public-key (test a))) (tag (ftp))):
  echo '(case (acl (entry (public-key (test a)) (tag (ftp)))) (accepted) (sequence)
    (key (public-key (test a))) (request (ftp)) (at \"2024-01-01_00:00:00\"))' | spki reduce
";

const CHECK: &str = "\
Reads a case on standard input, in any of the three forms of RFC 9804: an access list, the signatures that another tool
accepted, the certificates, the key that asks, its request, and a moment.
Writes yes entry N, where entry N is the first of the access list by which the key may have the request at that moment,
or no.

Exit status:
  0  yes
  1  no
  2  the text is refused, or its tags are too large to intersect; a line says why
  3  reading or writing failed

Example, which writes yes entry 1:
  echo '(case (acl (entry (public-key (test a)) (tag (ftp)))) (accepted) (sequence)
    (key (public-key (test a))) (request (ftp)) (at \"2024-01-01_00:00:00\"))' | spki check
";

const EXPLAIN: &str = "\
Reads a case on standard input, as check does: see spki check --help
Writes a line for each entry of the access list: entry N grants; or entry N NotTheKey, TagLacks or WindowLacks, if what
it becomes with the certificates is for another key, without the request, or not for the moment; or entry N item J
and why item J does not join. If certificate J fails a test of its own, the only line is item J and which test. If the
list is empty, the line is no entries.

Exit status:
  0  some entry grants the request
  1  none does
  2  the text is refused, or its tags are too large to intersect; a line says why
  3  reading or writing failed

Example, which writes entry 1 grants:
  echo '(case (acl (entry (public-key (test a)) (tag (ftp)))) (accepted) (sequence)
    (key (public-key (test a))) (request (ftp)) (at \"2024-01-01_00:00:00\"))' | spki explain
";

/// What a command does, in one line: for the list of commands in the help of `spki`, and the first line of the command's own help.
pub(crate) fn about(command: Command) -> &'static str {
    match command {
        Command::Canonical => "Writes a value in canonical form",
        Command::Advanced => "Writes a value in advanced form",
        Command::Transport => "Writes a value in transport form",
        Command::Intersect => "Writes the tag of the requests that two tags both contain",
        Command::Reduce => "Shows what each entry of an access list becomes with the certificates",
        Command::Check => "Decides whether a key may have what it asks for",
        Command::Explain => "Explains for each entry why it grants what is asked, or does not",
    }
}

/// The text at the end of a command's own help, such as `spki check --help`: what is read and written, the exit statuses, an example.
pub(crate) fn details(command: Command) -> &'static str {
    match command {
        Command::Canonical => CANONICAL,
        Command::Advanced => ADVANCED,
        Command::Transport => TRANSPORT,
        Command::Intersect => INTERSECT,
        Command::Reduce => REDUCE,
        Command::Check => CHECK,
        Command::Explain => EXPLAIN,
    }
}
