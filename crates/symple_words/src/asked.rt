ghost use Rattle.std.specs.Prelude.{◌≡◌, map, IfOk};
ghost use Rattle.clap.specs.Simple.{app_of};
ghost use Rattle.symple_words.specs.Asked.{app_with, app_for, positional_rule, option_rule, flag_rule};
ghost use Rattle.symple_words.specs.Views.{form_of, texts};

use crate::form::Form;
use clap::{Arg, ArgAction, Command};
use std::alloc::{AllocError, Global};

fn with_positionals<'a>(
    alloc: Global,
    mut command: Command<'a>,
    names: &[&'static str],
) -> Result<Command<'a>, AllocError>
    ensures { IfOk result (λ c. app_of c
        ≡ app_with (app_of command.entry) (map positional_rule (texts names.now))) }
{
    for name in names {
        let arg = Arg::new(alloc, *name).action(ArgAction::Set);
        command = command.arg(arg)?;
    }
    Ok(command)
}

fn with_options<'a>(
    alloc: Global,
    mut command: Command<'a>,
    names: &[&'static str],
) -> Result<Command<'a>, AllocError>
    ensures { IfOk result (λ c. app_of c
        ≡ app_with (app_of command.entry) (map option_rule (texts names.now))) }
{
    for name in names {
        let arg = Arg::new(alloc, *name).long(*name).action(ArgAction::Set);
        command = command.arg(arg)?;
    }
    Ok(command)
}

fn with_flags<'a>(
    alloc: Global,
    mut command: Command<'a>,
    names: &[&'static str],
) -> Result<Command<'a>, AllocError>
    ensures { IfOk result (λ c. app_of c
        ≡ app_with (app_of command.entry) (map flag_rule (texts names.now))) }
{
    for name in names {
        let arg = Arg::new(alloc, *name)
            .long(*name)
            .action(ArgAction::SetTrue);
        command = command.arg(arg)?;
    }
    Ok(command)
}

/// The clap command of a form.
pub(crate) fn command_for<'a>(
    alloc: Global,
    name: &'a str,
    form: &Form,
) -> Result<Command<'a>, AllocError>
    ensures { IfOk result (λ c. app_of c ≡ app_for name.now (form_of form.now)) }
{
    let bare = Command::new(alloc, name).disable_help_flag(true);
    let placed = with_positionals(alloc, bare, form.positionals)?;
    let chosen = with_options(alloc, placed, form.options)?;
    with_flags(alloc, chosen, form.flags)
}
