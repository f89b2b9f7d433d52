//! Generates the commands of a drill. A drill is a self-test whose input is generated from a number.
ghost use Rattle.std.specs.Prelude.{◌≡◌, IfOk, IfSome, OnErr, Some, None};
ghost use Rattle.kds_defs.specs.declared.command.Command.TheVariants as command;
ghost use Rattle.kds_defs.specs.Lawful.{IsLawfulCommand};
ghost use Rattle.kcl_drill.specs.declared.state.State.{State};
ghost use Rattle.kcl_drill.specs.Generated.{generated};
ghost use Rattle.kcl_drill.specs.Coming.{GivesNext};

use crate::state::{DrillStage, State};
use kds_base::Memory;
use kds_defs::Command;
use std::alloc::Global;
use std::marker::Model;

/// Generates the commands of a drill, one after another. In contracts, a generator is the list of the commands that are
/// still to come.
#[derive(Drop)]
pub struct Generator {
    state: State,
}

impl Model for Generator {
    ghost use Rattle.std.specs.Prelude.{List};
    ghost use Rattle.kds_defs.specs.declared.command.Command.{Command};
    ghost use Rattle.kcl_drill.specs.Coming.{coming, IsSound};

    ghost Value = { List Command };

    ghost view = { λ g. coming g.state };

    ghost invariant = { λ g. IsSound g.state };
}

/// Returns the generator for the drill that is generated from `number`. `records` is the number of records to put. One
/// command is generated for each record.
pub fn generate(alloc: Global, number: u64, records: u64) -> Generator
    ensures { result ≡ generated number records }
{
    Generator {
        state: State::new(alloc, number, records),
    }
}

impl Generator {
    /// Returns the next command, or `None` if no command is left. If memory runs out, the commands that are still to
    /// come don't change.
    pub fn next(&mut self) -> Result<Option<Command>, Memory>
        ensures ok { IfOk result (λ next. GivesNext next self.old self.new) }
        ensures lawful { IfOk result (λ next. IfSome next IsLawfulCommand) }
        ensures err { OnErr result (self.new ≡ self.old) }
    {
        if let DrillStage::Create = self.state.stage {
            return Ok(Some(self.state.create()?));
        }
        if let DrillStage::Reshard = self.state.stage {
            if let Some(command) = self.state.reshard()? {
                return Ok(Some(command));
            }
        }
        self.state.put()
    }
}
