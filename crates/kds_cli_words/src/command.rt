//! Describes the program's subcommands and their arguments for `clap`.
ghost use Rattle.std.specs.Prelude.{IfOk};
ghost use Rattle.kds_cli_words.specs.Apps.{HasApp, answer_kds, audit_kds, bare_app, drill_app, kds_app, replay_app};
ghost use Rattle.kds_cli_words.specs.Apps.{replay_kds, serve_app, serve_kds};

use clap::{Arg, ArgAction, Command};
use std::alloc::{AllocError, Global};

/// Returns the subcommand `replay`, with its flag `--journal`.
fn replay_command<'a>(alloc: Global) -> Result<Command<'a>, AllocError>
    ensures { IfOk result (λ c. HasApp c replay_app) }
{
    let journal = Arg::new(alloc, "journal")
        .long("journal")
        .action(ArgAction::SetTrue);
    Command::new(alloc, "replay").arg(journal)
}

/// Returns the subcommand `serve`, with its required arguments `port` and `members`.
fn serve_command<'a>(alloc: Global) -> Result<Command<'a>, AllocError>
    ensures { IfOk result (λ c. HasApp c serve_app) }
{
    let port = Arg::new(alloc, "port").required(true);
    let members = Arg::new(alloc, "members").required(true);
    Command::new(alloc, "serve").arg(port)?.arg(members)
}

/// Returns the subcommand `drill`, with its required arguments `number`, `workers` and `records`.
fn drill_command<'a>(alloc: Global) -> Result<Command<'a>, AllocError>
    ensures { IfOk result (λ c. HasApp c drill_app) }
{
    let number = Arg::new(alloc, "number").required(true);
    let workers = Arg::new(alloc, "workers").required(true);
    let records = Arg::new(alloc, "records").required(true);
    Command::new(alloc, "drill")
        .arg(number)?
        .arg(workers)?
        .arg(records)
}

/// Returns the program's command without subcommands. `clap` gets the words without the program's name, and adds no
/// help flag and no help subcommand.
fn bare_command<'a>(alloc: Global) -> Command<'a>
    ensures { HasApp result bare_app }
{
    let bare = Command::new(alloc, "kds")
        .no_binary_name(true)
        .disable_help_flag(true)
        .disable_help_subcommand(true);
    bare
}

/// Returns the program's command with the subcommand `replay`.
fn with_replay<'a>(alloc: Global) -> Result<Command<'a>, AllocError>
    ensures { IfOk result (λ c. HasApp c replay_kds) }
{
    let replay = replay_command(alloc)?;
    bare_command(alloc).subcommand(replay)
}

/// Returns the program's command with the subcommands `replay` and `answer`.
fn with_answer<'a>(alloc: Global) -> Result<Command<'a>, AllocError>
    ensures { IfOk result (λ c. HasApp c answer_kds) }
{
    let one = with_replay(alloc)?;
    one.subcommand(Command::new(alloc, "answer"))
}

/// Returns the program's command with the subcommands `replay`, `answer` and `audit`.
fn with_audit<'a>(alloc: Global) -> Result<Command<'a>, AllocError>
    ensures { IfOk result (λ c. HasApp c audit_kds) }
{
    let two = with_answer(alloc)?;
    two.subcommand(Command::new(alloc, "audit"))
}

/// Returns the program's command with all subcommands except `drill`.
fn with_serve<'a>(alloc: Global) -> Result<Command<'a>, AllocError>
    ensures { IfOk result (λ c. HasApp c serve_kds) }
{
    let serve = serve_command(alloc)?;
    let three = with_audit(alloc)?;
    three.subcommand(serve)
}

/// Returns the program's command with all subcommands. Each function above whose name begins with `with_` adds one
/// subcommand, so that few values are live at each point at which memory may run out.
pub fn kds_command<'a>(alloc: Global) -> Result<Command<'a>, AllocError>
    ensures { IfOk result (λ c. HasApp c kds_app) }
{
    let drill = drill_command(alloc)?;
    let four = with_serve(alloc)?;
    four.subcommand(drill)
}
