// The commands that `clap` reads the words by.
ghost use Rattle.std.specs.Prelude.{◌≡◌, IfOk, false, map};
ghost use Rattle.clap.specs.Built.{AddsSubcommand};
ghost use Rattle.clap.specs.Words.{app_of, rule_of};
ghost use Rattle.clap.specs.declared.builder.command.Command.{Command as CommandIs};
ghost use Rattle.clap.specs.declared.builder.command.Command.TheViews.{out-Command};
ghost use Rattle.fries_words.specs.Apps.{IsApp, command_app, flag_rule_of, name_rule};
ghost use Rattle.fries_words.specs.Apps.{option_rule, option_rule_of, program_app, shape_on};
ghost use Rattle.fries_words.specs.Apps.{switch_rule, topic_view, with_rules, with_shapes};
ghost use Rattle.fries_words.specs.Views.{flag_view, form_view, option_view, texts};
ghost use Rattle.fries_words.specs.Words.{form_of as form_of_topic};

use crate::Topic;
use crate::form::{Flag, Form, ValueOption, form_of};
use clap::{Arg, ArgAction, Command};
use std::alloc::{AllocError, Global};

// Each command, and what it is about.
const COMMANDS: &[(&str, Topic)] = &[
    ("first", Topic::First),
    ("check", Topic::Check),
    ("plan", Topic::Plan),
    ("run", Topic::Run),
    ("make", Topic::Make),
    ("save", Topic::Save),
    ("resume", Topic::Resume),
    ("live", Topic::Live),
    ("verify", Topic::Verify),
    ("stream", Topic::Stream),
];

/// The program with its commands.
pub(crate) fn program<'w>(alloc: Global) -> Result<Command<'w>, AllocError>
    ensures { IfOk result (λ made. IsApp made program_app) }
{
    with_commands(
        alloc,
        Command::new(alloc, "fries").no_binary_name(true),
        COMMANDS,
    )
}

fn with_commands<'w>(
    alloc: Global,
    program: Command<'w>,
    commands: &'static [(&'static str, Topic)],
) -> Result<Command<'w>, AllocError>
    requires { (out-Command program).has_globals ≡ false }
    ensures { IfOk result (λ made. IsApp made
        (with_shapes (app_of program.entry) (map shape_on (map topic_view commands.entry.now)))) }
{
    let mut program = program;
    for pair in commands {
        program = with_command(alloc, program, pair.0, pair.1)?;
    }
    Ok(program)
}

fn with_command<'w>(
    alloc: Global,
    program: Command<'w>,
    word: &'w str,
    about: Topic,
) -> Result<Command<'w>, AllocError>
    ensures { IfOk result (λ made. (added : CommandIs) ×
        IsApp added (command_app word.entry.now (form_of_topic about))
        × AddsSubcommand program.entry added made) }
{
    let added = command(alloc, word, &form_of(about))?;
    program.subcommand(added)
}

fn command<'w>(alloc: Global, word: &'w str, form: &Form) -> Result<Command<'w>, AllocError>
    ensures { IfOk result (λ made. IsApp made (command_app word.entry.now (form_view form.now))) }
{
    let command = with_names(alloc, Command::new(alloc, word), form.names, true)?;
    let command = with_names(alloc, command, form.extra, false)?;
    let command = with_options(alloc, command, form.options)?;
    with_flags(alloc, command, form.flags)
}

fn with_names<'w>(
    alloc: Global,
    command: Command<'w>,
    names: &'static [&'static str],
    needed: bool,
) -> Result<Command<'w>, AllocError>
    requires { (out-Command command).has_globals ≡ false }
    ensures { IfOk result (λ made. IsApp made
        (with_rules (app_of command.entry) (map (name_rule needed) (texts names.entry.now)))) }
{
    let mut command = command;
    for id in names {
        command = command.arg(name(alloc, id, needed))?;
    }
    Ok(command)
}

fn with_options<'w>(
    alloc: Global,
    command: Command<'w>,
    options: &'static [ValueOption],
) -> Result<Command<'w>, AllocError>
    requires { (out-Command command).has_globals ≡ false }
    ensures { IfOk result (λ made. IsApp made
        (with_rules (app_of command.entry)
        (map option_rule_of (map option_view options.entry.now)))) }
{
    let mut command = command;
    for value in options {
        command = command.arg(option(alloc, value.id))?;
    }
    Ok(command)
}

fn with_flags<'w>(
    alloc: Global,
    command: Command<'w>,
    flags: &'static [Flag],
) -> Result<Command<'w>, AllocError>
    requires { (out-Command command).has_globals ≡ false }
    ensures { IfOk result (λ made. IsApp made
        (with_rules (app_of command.entry) (map flag_rule_of (map flag_view flags.entry.now)))) }
{
    let mut command = command;
    for flag in flags {
        command = command.arg(switch(alloc, flag.id))?;
    }
    Ok(command)
}

fn name<'w>(alloc: Global, id: &'w str, needed: bool) -> Arg<'w>
    ensures rule { rule_of result ≡ name_rule needed id.entry.now }
    ensures local { result.global ≡ false }
{
    Arg::new(alloc, id).required(needed)
}

fn option<'w>(alloc: Global, id: &'w str) -> Arg<'w>
    ensures rule { rule_of result ≡ option_rule id.entry.now }
    ensures local { result.global ≡ false }
{
    Arg::new(alloc, id).long(id)
}

fn switch<'w>(alloc: Global, id: &'w str) -> Arg<'w>
    ensures rule { rule_of result ≡ switch_rule id.entry.now }
    ensures local { result.global ≡ false }
{
    option(alloc, id).action(ArgAction::SetTrue)
}
