//! Why something is refused, and the lines that say so. Printing them allocates nothing, unless the sink does.
ghost use Rattle.std.specs.Prelude.{◌≡◌, ◌∷◌, map};
ghost use Rattle.spki_case.specs.Case.{IsOuter};
ghost use Rattle.spki_guard.specs.Lines.{refused_line, refused, refused_item, refused_tag, refused_at, refused_text, refused_in, refused_case, refused_rows, refused_decision, refused_intersect, refused_list, refused_question, part_word, tag_kind, kind_name};

use crate::intersection::IntersectFault;
use crate::lines::{print_line, print_refused_memory};
use itoa::Buffer;
use sexpr_core::FormFault;
use sexpr_text::Sink;
use spki_case::{CaseFault, RowsFault};
use spki_cert::{CertFault, CertFaultKind};
use spki_decision::GuardFault;
use spki_service::{AclFault, AskFault, Part};
use spki_tag::TagFault;
use std::alloc::AllocError;

/// Why a text, an access list or a question is refused.
#[derive(Clone, Copy)]
pub(crate) enum Refusal {
    /// The text has no value within the limits.
    Form(FormFault),
    /// The text has no intersection.
    Intersect(IntersectFault),
    /// The text is no case.
    Case(CaseFault),
    /// The case or the question was read, and is not answered.
    Decision(GuardFault),
    /// The separate accepted list is refused.
    Rows(RowsFault),
    /// The access list for a guard is refused.
    List(AclFault),
    /// The question to a guard is refused.
    Question(AskFault),
    /// Memory ran out.
    Memory,
}

impl From<FormFault> for Refusal {
    ghost use Rattle.sexpr_core.specs.declared.fault.FormFault.{FormFault};
    ghost use Rattle.spki_guard.specs.declared.refusals.Refusal.{Refusal};

    ghost from_gives = { λ fault refusal.
        IsOuter (fault ≡ FormFault.Memory) Refusal.Memory (Refusal.Form fault) refusal };

    /// `Memory` becomes `Refusal::Memory`, and every other fault `Refusal::Form` with it.
    fn from(fault: FormFault) -> Refusal {
        match fault {
            FormFault::Memory => Refusal::Memory,
            _ => Refusal::Form(fault),
        }
    }
}

impl From<IntersectFault> for Refusal {
    ghost use Rattle.spki_guard.specs.declared.{intersection.IntersectFault.{IntersectFault}, refusals.Refusal.{Refusal}};

    ghost from_gives = { λ fault refusal.
        IsOuter (fault ≡ IntersectFault.Memory) Refusal.Memory (Refusal.Intersect fault) refusal };

    /// `Memory` becomes `Refusal::Memory`, and every other fault `Refusal::Intersect` with it.
    fn from(fault: IntersectFault) -> Refusal {
        match fault {
            IntersectFault::Memory => Refusal::Memory,
            _ => Refusal::Intersect(fault),
        }
    }
}

impl From<CaseFault> for Refusal {
    ghost use Rattle.spki_case.specs.declared.cases.CaseFault.{CaseFault};
    ghost use Rattle.spki_guard.specs.declared.refusals.Refusal.{Refusal};

    ghost from_gives = { λ fault refusal.
        IsOuter (fault ≡ CaseFault.Memory) Refusal.Memory (Refusal.Case fault) refusal };

    /// `Memory` becomes `Refusal::Memory`. Every other fault is kept, in `Refusal::Case`.
    fn from(fault: CaseFault) -> Refusal {
        match fault {
            CaseFault::Memory => Refusal::Memory,
            _ => Refusal::Case(fault),
        }
    }
}

impl From<RowsFault> for Refusal {
    ghost use Rattle.spki_case.specs.declared.rows.RowsFault.{RowsFault};
    ghost use Rattle.spki_guard.specs.declared.refusals.Refusal.{Refusal};

    ghost from_gives = { λ fault refusal.
        IsOuter (fault ≡ RowsFault.Memory) Refusal.Memory (Refusal.Rows fault) refusal };

    /// `Memory` becomes `Refusal::Memory`, and every other fault `Refusal::Rows` with it.
    fn from(fault: RowsFault) -> Refusal {
        match fault {
            RowsFault::Memory => Refusal::Memory,
            _ => Refusal::Rows(fault),
        }
    }
}

impl From<GuardFault> for Refusal {
    ghost use Rattle.spki_decision.specs.declared.fault.GuardFault.{GuardFault};
    ghost use Rattle.spki_guard.specs.declared.refusals.Refusal.{Refusal};

    ghost from_gives = { λ fault refusal.
        IsOuter (fault ≡ GuardFault.Memory) Refusal.Memory (Refusal.Decision fault) refusal };

    /// `Memory` becomes `Refusal::Memory`, and `TooLarge` becomes `Refusal::Decision` with it.
    fn from(fault: GuardFault) -> Refusal {
        match fault {
            GuardFault::TooLarge => Refusal::Decision(GuardFault::TooLarge),
            GuardFault::Memory => Refusal::Memory,
        }
    }
}

impl From<AllocError> for Refusal {
    ghost use Rattle.spki_guard.specs.declared.refusals.Refusal.{Refusal};

    ghost from_gives = { λ _ refusal. refusal ≡ Refusal.Memory };

    /// An allocation that failed is `Refusal::Memory`.
    fn from(_: AllocError) -> Refusal {
        Refusal::Memory
    }
}

/// Prints the line of a refusal, such as `refused form TooLong` or `refused acl 2 BadDate`, and a line feed. For each
/// fault `Memory` it prints `refused Memory`.
pub(crate) fn print_refusal<S: Sink>(refusal: Refusal, sink: &mut S)
    ensures { S.takes sink.old (refused_line refusal) sink.new }
{
    match refusal {
        Refusal::Form(fault) => print_text_fault("form", fault, sink),
        Refusal::Intersect(fault) => print_intersect_fault(fault, sink),
        Refusal::Case(fault) => print_case_fault(fault, sink),
        Refusal::Decision(fault) => print_decision_fault(fault, sink),
        Refusal::Rows(fault) => print_rows_fault(fault, sink),
        Refusal::List(fault) => print_list_fault(fault, sink),
        Refusal::Question(fault) => print_question_fault(fault, sink),
        Refusal::Memory => print_refused_memory(sink),
    }
}

/// Prints the line `refused` with the words `why` after it, such as `refused case Shape`, and a line feed.
fn print_refused<S: Sink>(why: &[&str], sink: &mut S)
    ensures { S.takes sink.old (refused (map (λ word. word.now) why.now)) sink.new }
{
    print_line("refused", why, sink);
}

/// Prints `refused TEXT KIND`, or `refused TEXT KIND OFFSET` for `Bad` and `Trailing`; `text` is the word for the text
/// that has the fault, such as `form` or `rows`. For `Memory` it prints `refused Memory`.
fn print_text_fault<S: Sink>(text: &str, fault: FormFault, sink: &mut S)
    ensures { S.takes sink.old (refused_text text.now fault) sink.new }
{
    match fault {
        FormFault::TooLong => print_refused(&[text, "TooLong"], sink),
        FormFault::TooDeep => print_refused(&[text, "TooDeep"], sink),
        FormFault::Short => print_refused(&[text, "Short"], sink),
        FormFault::Bad(at) => print_refused_at(text, "Bad", at, sink),
        FormFault::Trailing(at) => print_refused_at(text, "Trailing", at, sink),
        FormFault::Memory => print_refused_memory(sink),
    }
}

/// Prints `refused TEXT KIND AT`, such as `refused form Bad 5`, and a line feed. `at` is AT, the offset in the text, from 0, of the fault.
#[tactic(auto, using(crate::proofs::ReportLines::decimal_written))]
fn print_refused_at<S: Sink>(text: &str, kind: &str, at: usize, sink: &mut S)
    ensures { S.takes sink.old (refused_at text.now kind.now at) sink.new }
{
    let mut digits = Buffer::new();
    print_refused(&[text, kind, digits.format(at)], sink);
}

/// Prints `refused PART N KIND`, such as `refused acl 2 BadDate`, and a line feed. `part` is PART, the word for the list that is refused. `item`
/// is N, the number of its entry, row or item, from 1, or 0 for the whole list. `kind` is KIND, the fault. For `(intersect A B)` PART is `tag`,
/// and N is 1 for A and 2 for B.
#[tactic(auto, using(crate::proofs::ReportLines::decimal_written))]
fn print_refused_item<S: Sink>(part: &str, item: usize, kind: &str, sink: &mut S)
    ensures { S.takes sink.old (refused_item part.now item kind.now) sink.new }
{
    let mut digits = Buffer::new();
    print_refused(&[part, digits.format(item), kind], sink);
}

/// Prints `refused PART N Tag KIND`, such as `refused acl 2 Tag Hint`, and a line feed: the tag in item N of the list PART has the fault KIND.
/// `item` is N, counted from 1.
#[tactic(auto, using(crate::proofs::ReportLines::decimal_written))]
fn print_refused_tag<S: Sink>(part: &str, item: usize, kind: &str, sink: &mut S)
    ensures { S.takes sink.old (refused_tag part.now item kind.now) sink.new }
{
    let mut digits = Buffer::new();
    print_refused(&[part, digits.format(item), "Tag", kind], sink);
}

/// Prints the line of a fault in an access list, accepted list or sequence: `refused PART N KIND`, `refused PART N Tag KIND` for a
/// tag, or `refused Memory`. N is the number of the entry, row or item, from 1, or 0 for the whole list. `part` is the word for the
/// list, such as `acl`, and `met` the fault of the tag.
fn print_item_fault<S: Sink>(part: &str, fault: CertFault, sink: &mut S)
    ensures { S.takes sink.old (refused_in part.now fault.item fault.kind) sink.new }
{
    match fault.kind {
        CertFaultKind::Tag(met) => print_refused_tag(part, fault.item, tag_kind(met), sink),
        CertFaultKind::Memory => print_refused_memory(sink),
        kind => print_refused_item(part, fault.item, kind_name(kind), sink),
    }
}

/// Prints the line of a case's fault, such as `refused case Shape` or `refused acl 2 BadDate`. `met` is the fault of the part.
fn print_case_fault<S: Sink>(fault: CaseFault, sink: &mut S)
    ensures { S.takes sink.old (refused_case fault) sink.new }
{
    match fault {
        CaseFault::Form(met) => print_text_fault("form", met, sink),
        CaseFault::Shape => print_refused(&["case", "Shape"], sink),
        CaseFault::Acl(met) => print_item_fault("acl", met, sink),
        CaseFault::Accepted(met) => print_item_fault("accepted", met, sink),
        CaseFault::Sequence(met) => print_item_fault("sequence", met, sink),
        CaseFault::Key(met) => print_refused(&["key", kind_name(met.kind)], sink),
        CaseFault::Request(met) => print_refused(&["request", tag_kind(met)], sink),
        CaseFault::At(met) => print_refused(&["at", kind_name(met.kind)], sink),
        CaseFault::Memory => print_refused_memory(sink),
    }
}

/// Prints the line of a fault of a separate accepted list, with the word `rows`, such as `refused rows 2 Shape`. `met` is the fault of the text
/// or of the row.
fn print_rows_fault<S: Sink>(fault: RowsFault, sink: &mut S)
    ensures { S.takes sink.old (refused_rows fault) sink.new }
{
    match fault {
        RowsFault::Form(met) => print_text_fault("rows", met, sink),
        RowsFault::Shape => print_refused(&["rows", "Shape"], sink),
        RowsFault::Row(met) => print_item_fault("rows", met, sink),
        RowsFault::Memory => print_refused_memory(sink),
    }
}

/// Prints the line of a case or a question that was read, and is not answered: `refused TooLarge` or `refused Memory`.
fn print_decision_fault<S: Sink>(fault: GuardFault, sink: &mut S)
    ensures { S.takes sink.old (refused_decision fault) sink.new }
{
    match fault {
        GuardFault::TooLarge => print_refused(&["TooLarge"], sink),
        GuardFault::Memory => print_refused_memory(sink),
    }
}

/// Prints the line of a fault of `intersect`: `refused form ..`, `refused intersect Shape`, `refused tag N KIND` where N is 1 for the first tag
/// and 2 for the second, `refused TooLarge` or `refused Memory`. `met` is the fault of the text or tag.
fn print_intersect_fault<S: Sink>(fault: IntersectFault, sink: &mut S)
    ensures { S.takes sink.old (refused_intersect fault) sink.new }
{
    match fault {
        IntersectFault::Form(met) => print_text_fault("form", met, sink),
        IntersectFault::Shape => print_refused(&["intersect", "Shape"], sink),
        IntersectFault::First(met) => print_refused_item("tag", 1, tag_kind(met), sink),
        IntersectFault::Second(met) => print_refused_item("tag", 2, tag_kind(met), sink),
        IntersectFault::TooLarge => print_refused(&["TooLarge"], sink),
        IntersectFault::Memory => print_refused_memory(sink),
    }
}

/// Prints the line of the fault of a guard's access list: `refused form KIND ..`, `refused acl N KIND ..` or `refused Memory`. `met` is the
/// fault of the text or of the list.
fn print_list_fault<S: Sink>(fault: AclFault, sink: &mut S)
    ensures { S.takes sink.old (refused_list fault) sink.new }
{
    match fault {
        AclFault::Form(met) => print_text_fault("form", met, sink),
        AclFault::Acl(met) => print_item_fault("acl", met, sink),
        AclFault::Memory => print_refused_memory(sink),
    }
}

/// Prints the line of a question's fault: `refused question KIND` if the question exceeds a limit, otherwise with the word for its
/// part, such as `refused key Shape`, or `refused Memory`. `met` is the fault of the part.
fn print_question_fault<S: Sink>(fault: AskFault, sink: &mut S)
    ensures { S.takes sink.old (refused_question fault) sink.new }
{
    match fault {
        AskFault::TooLong => print_refused(&["question", "TooLong"], sink),
        AskFault::TooManyCertificates => print_refused(&["question", "TooManyCertificates"], sink),
        AskFault::TooManyWords => print_refused(&["question", "TooManyWords"], sink),
        AskFault::Form { part, fault } => print_text_fault(part_word(part), fault, sink),
        AskFault::Sequence(met) => print_item_fault("sequence", met, sink),
        AskFault::Key(met) => print_refused(&["key", kind_name(met)], sink),
        AskFault::Request(met) => print_refused(&["request", tag_kind(met)], sink),
        AskFault::Moment(met) => print_refused(&["at", kind_name(met)], sink),
        AskFault::Memory => print_refused_memory(sink),
    }
}

/// The word for a fault of a tag or a request in a line: the name of its variant. No line has `Memory` here: `refused Memory` has no part.
fn tag_kind(fault: TagFault) -> &'static str
    ensures { result.now ≡ tag_kind fault }
{
    match fault {
        TagFault::EmptyList => "EmptyList",
        TagFault::ListHead => "ListHead",
        TagFault::Hint => "Hint",
        TagFault::UnknownStar => "UnknownStar",
        TagFault::RangeOrdering => "RangeOrdering",
        TagFault::RangeLimit => "RangeLimit",
        TagFault::TooManyNodes => "TooManyNodes",
        TagFault::StarInRequest => "StarInRequest",
        TagFault::Memory => "Memory",
    }
}

/// The word for a fault of a key, entry, certificate, date or other part in a line: the name of its variant. No line has `Tag` or
/// `Memory` alone: for the fault of a tag `print_refused_tag` also prints what is wrong with the tag, and `refused Memory` has no part.
fn kind_name(kind: CertFaultKind) -> &'static str
    ensures { result.now ≡ kind_name kind }
{
    match kind {
        CertFaultKind::Shape => "Shape",
        CertFaultKind::UnknownVersion => "UnknownVersion",
        CertFaultKind::HashAlg => "HashAlg",
        CertFaultKind::DigestLength => "DigestLength",
        CertFaultKind::KeyUris => "KeyUris",
        CertFaultKind::Threshold => "Threshold",
        CertFaultKind::Keyholder => "Keyholder",
        CertFaultKind::Online => "Online",
        CertFaultKind::RelativeInEntry => "RelativeInEntry",
        CertFaultKind::BadDate => "BadDate",
        CertFaultKind::UnsignedCert => "UnsignedCert",
        CertFaultKind::StraySignature => "StraySignature",
        CertFaultKind::UnknownOp => "UnknownOp",
        CertFaultKind::Tag(_) => "Tag",
        CertFaultKind::Memory => "Memory",
    }
}

/// The word for a part in a line: `sequence`, `key`, `request`, or `at` for the moment.
fn part_word(part: Part) -> &'static str
    ensures { result.now ≡ part_word part }
{
    match part {
        Part::Sequence => "sequence",
        Part::Key => "key",
        Part::Request => "request",
        Part::Moment => "at",
    }
}
