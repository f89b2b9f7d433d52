//! A law: a command on leases has exactly one text. A law is a theorem that proofs can use.
ghost use Rattle.std.specs.Prelude.{◌≡◌, Bool, List, Some, ℕ};
ghost use Rattle.kds_defs.specs.declared.command.Command.{Command};
ghost use Rattle.kcl_script_fields.specs.Commands.{IsAsked, command_of, raw_text};

/// A raw line of a schedule contains a command on leases, and selects the form (short or long) of the command's answer.
/// Each such pair of a command and a form has exactly one text, and no other text is read as this pair.
pub fn one_command_text()
    ensures reads { (text : List ℕ) (command : Command) (long : Bool) → command_of text ≡ Some (command, long)
        → IsAsked command long × (text ≡ raw_text command long) }
    ensures again { (command : Command) (long : Bool) → IsAsked command long
        → command_of (raw_text command long) ≡ Some (command, long) }
{}
