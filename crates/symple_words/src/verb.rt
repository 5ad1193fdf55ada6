ghost use Rattle.std.specs.Prelude.{◌≡◌};
ghost use Rattle.symple_words.specs.Commands.{verb_of, form_for};
ghost use Rattle.symple_words.specs.Views.{form_of};

use crate::form::Form;

/// A command.
#[derive(Clone, Copy)]
pub(crate) enum Verb {
    Run,
    Record,
    Replay,
    Resume,
    Show,
    Free,
    Plan,
    Demo,
    Renew,
    Split,
    Worker,
}

/// The command that a word names.
pub(crate) fn verb_of(word: &str) -> Option<Verb>
    ensures { result ≡ verb_of word.now }
{
    if word == "run" {
        Some(Verb::Run)
    } else if word == "record" {
        Some(Verb::Record)
    } else if word == "replay" {
        Some(Verb::Replay)
    } else if word == "resume" {
        Some(Verb::Resume)
    } else if word == "show" {
        Some(Verb::Show)
    } else if word == "free" {
        Some(Verb::Free)
    } else if word == "plan" {
        Some(Verb::Plan)
    } else if word == "demo" {
        Some(Verb::Demo)
    } else if word == "renew" {
        Some(Verb::Renew)
    } else if word == "split" {
        Some(Verb::Split)
    } else if word == "worker" {
        Some(Verb::Worker)
    } else {
        None
    }
}

static RUN_FLAGS: [&str; 6] = ["both", "binary", "weighted", "rounds", "reads", "log"];

static RECORD_FLAGS: [&str; 7] = [
    "both", "binary", "weighted", "rounds", "reads", "log", "lossy",
];

static GRAPH_FLAGS: [&str; 3] = ["both", "binary", "weighted"];

static NO_NAMES: [&str; 0] = [];

static RUN_POSITIONALS: [&str; 2] = ["program", "graph"];

static RUN_OPTIONS: [&str; 4] = ["machines", "vertices", "draws", "image"];

static SCHEDULE_POSITIONALS: [&str; 3] = ["program", "graph", "schedule"];

static RECORD_OPTIONS: [&str; 4] = ["machines", "vertices", "draws", "seed"];

static REPLAY_OPTIONS: [&str; 2] = ["vertices", "draws"];

static RESUME_POSITIONALS: [&str; 3] = ["program", "graph", "image"];

static DRAWS_OPTIONS: [&str; 3] = ["machines", "vertices", "draws"];

static PROGRAM_POSITIONALS: [&str; 1] = ["program"];

static PLAN_POSITIONALS: [&str; 1] = ["graph"];

static PLAN_OPTIONS: [&str; 2] = ["machines", "vertices"];

static DEMO_POSITIONALS: [&str; 1] = ["seed"];

static DEMO_OPTIONS: [&str; 1] = ["machines"];

static RENEW_POSITIONALS: [&str; 2] = ["schedule", "target"];

static SPLIT_POSITIONALS: [&str; 3] = ["program", "graph", "prefix"];

static WORKER_POSITIONALS: [&str; 2] = ["part", "rows"];

/// The names of a command.
pub(crate) fn form_for(verb: Verb) -> Form
    ensures { form_of result ≡ form_for verb }
{
    match verb {
        Verb::Run => Form {
            positionals: &RUN_POSITIONALS,
            options: &RUN_OPTIONS,
            flags: &RUN_FLAGS,
        },
        Verb::Record => Form {
            positionals: &SCHEDULE_POSITIONALS,
            options: &RECORD_OPTIONS,
            flags: &RECORD_FLAGS,
        },
        Verb::Replay => Form {
            positionals: &SCHEDULE_POSITIONALS,
            options: &REPLAY_OPTIONS,
            flags: &RUN_FLAGS,
        },
        Verb::Resume => Form {
            positionals: &RESUME_POSITIONALS,
            options: &DRAWS_OPTIONS,
            flags: &RUN_FLAGS,
        },
        Verb::Show | Verb::Free => Form {
            positionals: &PROGRAM_POSITIONALS,
            options: &NO_NAMES,
            flags: &NO_NAMES,
        },
        Verb::Plan => Form {
            positionals: &PLAN_POSITIONALS,
            options: &PLAN_OPTIONS,
            flags: &GRAPH_FLAGS,
        },
        Verb::Demo => Form {
            positionals: &DEMO_POSITIONALS,
            options: &DEMO_OPTIONS,
            flags: &NO_NAMES,
        },
        Verb::Renew => Form {
            positionals: &RENEW_POSITIONALS,
            options: &NO_NAMES,
            flags: &NO_NAMES,
        },
        Verb::Split => Form {
            positionals: &SPLIT_POSITIONALS,
            options: &DRAWS_OPTIONS,
            flags: &GRAPH_FLAGS,
        },
        Verb::Worker => Form {
            positionals: &WORKER_POSITIONALS,
            options: &NO_NAMES,
            flags: &NO_NAMES,
        },
    }
}
