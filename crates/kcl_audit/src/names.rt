//! The names of rules, and the lines in which an audit reports its result. An audit checks whether a journal, which is
//! an event log, is sound (valid). An entry of a journal is good if it breaks no rule, and bad otherwise.
ghost use Rattle.std.specs.Prelude.{◌≡◌, ◌++◌, OnErr, OnOk};
ghost use Rattle.kcl_audit.specs.Text.{named_text, rule_name as name_of_rule, sound_text};

use kcl_audit_streams::Rule;
use kcl_script_fields::{refusal_name, with_number};
use kds_base::{Memory, Octets};
use std::alloc::Global;

/// Returns the name of a rule as an audit prints it. An entry breaks the rule `By` if its command is refused. This rule
/// is printed as the name of the refusal, without the refusal's value.
pub fn rule_name(rule: &Rule) -> &'static str
    ensures { result.now ≡ name_of_rule rule.now }
{
    match rule {
        Rule::Form => "Form",
        Rule::Clock => "Clock",
        Rule::Entry => "Entry",
        Rule::By(refusal) => refusal_name(refusal),
    }
}

/// Adds the line `entry N RULE` for the bad entry with the number N, which breaks the rule called RULE. If memory runs
/// out, a prefix of the line may have been added.
fn fill_unsound(alloc: Global, number: u64, name: &str, to: &mut Octets) -> Result<(), Memory>
    ensures { OnOk result (to.new ≡ to.old ++ named_text number name.now) }
{
    with_number(alloc, b"entry".as_slice(), number, to)?;
    to.extend(b" ".as_slice())?;
    to.extend(name.as_bytes())?;
    to.extend(b"\n".as_slice())
}

/// Adds the line `entry N RULE` for a bad entry. N is the entry's number, counted from 1, and RULE is the name of the
/// rule that the entry breaks. If memory runs out, nothing is added.
pub fn print_unsound(alloc: Global, number: u64, name: &str, to: &mut Octets) -> Result<(), Memory>
    ensures ok { OnOk result (to.new ≡ to.old ++ named_text number name.now) }
    ensures err { OnErr result (to.new ≡ to.old) }
{
    let mut line = Octets::new(alloc);
    fill_unsound(alloc, number, name, &mut line)?;
    to.extend(line.as_slice())
}

/// Adds the line `sound N` for a journal whose N entries are all good. If memory runs out, a prefix of the line may
/// have been added.
fn fill_sound(alloc: Global, number: u64, to: &mut Octets) -> Result<(), Memory>
    ensures { OnOk result (to.new ≡ to.old ++ sound_text number) }
{
    with_number(alloc, b"sound".as_slice(), number, to)?;
    to.extend(b"\n".as_slice())
}

/// Adds the line `sound N` for a journal whose N entries are all good. If memory runs out, nothing is added.
pub fn print_sound(alloc: Global, number: u64, to: &mut Octets) -> Result<(), Memory>
    ensures ok { OnOk result (to.new ≡ to.old ++ sound_text number) }
    ensures err { OnErr result (to.new ≡ to.old) }
{
    let mut line = Octets::new(alloc);
    fill_sound(alloc, number, &mut line)?;
    to.extend(line.as_slice())
}
