//! Prints tags in advanced form. Allocates nothing, unless the sink does.

ghost use Rattle.std.specs.Prelude.{◌≡◌, [], ◌∷◌, if◌then◌else◌};
ghost use Rattle.sexpr_core.specs.Value.{plain, values};
ghost use Rattle.sexpr_text.specs.AdvancedForm.{adv, adv_all};
ghost use Rattle.spki_tag.specs.{Limits.{ordering_of}, Tag.{prefix, range, ordering_name, limit_values, tag_value, tag_values, tags}};
ghost use Rattle.spki_tag.specs.TagForms.{limit_shown};

use sexpr_text::{Sink, print_octets};
use spki_tag::{RangeOrdering, Tag, TagForm, TagLimit};

/// Prints a tag in advanced form. The octets are those that `print_advanced` prints for the tree of `Tag::write`, but no tree is
/// made. The recursion is as deep as the tag.
#[cycle(print)]
pub fn print_tag<S: Sink>(tag: &Tag, sink: &mut S)
    ensures { S.takes sink.old (adv (tag_value tag.now)) sink.new }
{
    match tag.form() {
        TagForm::Everything => sink.put(b"(*)"),
        TagForm::String(octets) => print_octets(octets, sink),
        TagForm::Prefix(octets) => print_prefix(octets, sink),
        TagForm::Range { ordering, low, up } => print_range(ordering, low, up, sink),
        TagForm::List { head, further } => {
            sink.put_octet(b'(');
            print_octets(head, sink);
            print_each(further, sink);
            sink.put_octet(b')');
        }
        TagForm::Set { members } => {
            sink.put(b"(* set");
            print_each(members, sink);
            sink.put_octet(b')');
        }
    }
}

/// Prints tags in advanced form, each with a space before it.
#[cycle(print)]
fn print_each<S: Sink>(members: &[Tag], sink: &mut S)
    ensures { S.takes sink.old (adv_all 1 (tag_values (tags members.now))) sink.new }
{
    for member in members {
        sink.put_octet(b' ');
        print_tag(member, sink);
    }
}

/// Prints `(* prefix P)`; `octets` are P.
fn print_prefix<S: Sink>(octets: &[u8], sink: &mut S)
    ensures { S.takes sink.old (adv (tag_value (prefix octets.now))) sink.new }
{
    sink.put(b"(* prefix ");
    print_octets(octets, sink);
    sink.put_octet(b')');
}

/// Prints `(* range ORDERING LOW UP)`. LOW is `g OCTETS` if the limit itself is excluded, otherwise `ge OCTETS`, and UP
/// is `l OCTETS` or `le OCTETS`. A limit that is None is left out.
fn print_range<S: Sink>(
    ordering: RangeOrdering,
    low: Option<TagLimit<'_>>,
    up: Option<TagLimit<'_>>,
    sink: &mut S,
)
    ensures { S.takes sink.old (adv (tag_value (range (ordering_of ordering) (limit_shown low.entry) (limit_shown up.entry)))) sink.new }
{
    sink.put(b"(* range ");
    print_octets(ordering_name(ordering), sink);
    print_limit(low, b"g", b"ge", sink);
    print_limit(up, b"l", b"le", sink);
    sink.put_octet(b')');
}

/// The word for an ordering in a range: `alpha`, `time` or `date`.
fn ordering_name(ordering: RangeOrdering) -> &'static [u8]
    ensures { result.now ≡ ordering_name (ordering_of ordering) }
{
    match ordering {
        RangeOrdering::Alpha => b"alpha",
        RangeOrdering::Time => b"time",
        RangeOrdering::Date => b"date",
    }
}

/// Prints a space, a word, a space and the limit's octets. The word is that in `strict`, such as `g`, if the limit itself is
/// excluded, otherwise that in `inclusive`, such as `ge`. For None, prints nothing.
fn print_limit<S: Sink>(limit: Option<TagLimit<'_>>, strict: &[u8], inclusive: &[u8], sink: &mut S)
    ensures { S.takes sink.old (adv_all 1 (values (limit_values strict.now inclusive.now (limit_shown limit.entry)))) sink.new }
{
    if let Some(limit) = limit {
        print_limit_word(limit.strict, strict, inclusive, sink);
        print_spaced(limit.octets, sink);
    }
}

/// Prints a space, and the word in `strict` if `is_strict` is true, otherwise the word in `inclusive`.
fn print_limit_word<S: Sink>(is_strict: bool, strict: &[u8], inclusive: &[u8], sink: &mut S)
    ensures { S.takes sink.old (adv_all 1 (values (plain (if is_strict then strict.now else inclusive.now) ∷ []))) sink.new }
{
    if is_strict {
        print_spaced(strict, sink);
    } else {
        print_spaced(inclusive, sink);
    }
}

/// Prints a string in advanced form, with a space before it.
fn print_spaced<S: Sink>(octets: &[u8], sink: &mut S)
    ensures { S.takes sink.old (adv_all 1 (values (plain octets.now ∷ []))) sink.new }
{
    sink.put_octet(b' ');
    print_octets(octets, sink);
}
