// The choice of the shell of commands, and the comparison of settings. If there is memory each call must succeed, even
// with large settings; no clause forbids a call to give up.

use crate::around::compares;
use crate::texts::{all_owned, list_of, owned, same};
use just_host::config::Config;
use just_host::settings::Settings;
use just_syntax::interpreter::Interpreter;
use just_value::value::Value;
use std::alloc::Global;
use std::process::Abort;

// The options of the program, the settings of the module, and the resulting shell: a text, and an argument. Each text
// is repeated `times` times in a shell, and so is each argument after it.
struct Choice {
    times: usize,
    shell: Option<&'static str>,
    shell_args: Option<&'static str>,
    setting: Option<(&'static str, &'static str)>,
    windows_powershell: bool,
    chosen: (&'static str, &'static str),
}

const PLAIN: Choice = Choice {
    times: 1,
    shell: None,
    shell_args: None,
    setting: None,
    windows_powershell: false,
    chosen: ("sh", "-cu"),
};

const NOPE: Option<(&str, &str)> = Some(("asdf.exe", "-nope"));

const CHOICES: &[Choice] = &[
    Choice {
        shell_args: Some("-nice"),
        chosen: ("sh", "-nice"),
        ..PLAIN
    },
    Choice {
        shell: Some("lol"),
        chosen: ("lol", "-cu"),
        ..PLAIN
    },
    Choice {
        setting: NOPE,
        chosen: ("asdf.exe", "-nope"),
        ..PLAIN
    },
    PLAIN,
    Choice {
        windows_powershell: true,
        ..PLAIN
    },
    Choice {
        shell: Some("lol"),
        shell_args: Some("-nice"),
        chosen: ("lol", "-nice"),
        ..PLAIN
    },
    Choice {
        shell: Some("lol"),
        shell_args: Some("-nice"),
        windows_powershell: true,
        chosen: ("lol", "-nice"),
        ..PLAIN
    },
    Choice {
        shell: Some("lol"),
        setting: NOPE,
        chosen: ("lol", "-cu"),
        ..PLAIN
    },
    Choice {
        times: 1000,
        setting: Some(("sh", "-c")),
        chosen: ("sh", "-c"),
        ..PLAIN
    },
    Choice {
        times: 1000,
        shell: Some("zsh"),
        shell_args: Some("-x"),
        setting: Some(("sh", "-c")),
        chosen: ("zsh", "-x"),
        ..PLAIN
    },
];

#[test]
fn shells(rt: HostRuntime) {
    for choice in CHOICES {
        chooses(&rt, rt.alloc(), choice);
    }
}

fn chooses(rt: &impl Abort, alloc: Global, choice: &Choice) {
    let config = called_with(rt, alloc, choice);
    let settings = set_by(rt, alloc, choice);
    has_shell(rt, alloc, &settings, &config, choice);
    drop(settings);
    drop(config);
}

// With these options, these settings have the chosen shell.
fn has_shell(
    rt: &impl Abort,
    alloc: Global,
    settings: &Settings,
    config: &Config,
    choice: &Choice,
) {
    let (text, argument) = choice.chosen;
    let wanted = repeated(rt, alloc, text, choice.times);
    let (command, arguments) = settings.shell(alloc, config).expect(rt, "no memory");
    same(rt, command, &wanted);
    are_all(rt, &arguments, argument, choice.times);
}

// There are this many arguments, and each is this one.
fn are_all(rt: &impl Abort, arguments: &[&str], wanted: &str, times: usize) {
    assert_eq!(rt; arguments.len(), times);
    for argument in arguments {
        same(rt, argument, wanted);
    }
}

fn called_with(rt: &impl Abort, alloc: Global, choice: &Choice) -> Config {
    let mut config = Config::new(alloc, "").expect(rt, "no memory");
    if let Some(text) = choice.shell {
        config.shell = Some(repeated(rt, alloc, text, choice.times));
    }
    if let Some(text) = choice.shell_args {
        config.shell_args = Some(copies(rt, alloc, text, choice.times));
    }
    config
}

fn set_by(rt: &impl Abort, alloc: Global, choice: &Choice) -> Settings {
    let mut settings = Settings::new(alloc);
    if let Some(line) = choice.setting {
        settings.shell = Some(interpreter(rt, alloc, line, choice.times));
    }
    settings.windows_powershell = choice.windows_powershell;
    settings
}

fn interpreter(
    rt: &impl Abort,
    alloc: Global,
    (text, argument): (&str, &str),
    times: usize,
) -> Interpreter<String> {
    let command = repeated(rt, alloc, text, times);
    Interpreter::new(command, copies(rt, alloc, argument, times))
}

fn repeated(rt: &impl Abort, alloc: Global, text: &str, times: usize) -> String {
    text.repeat(alloc, times).expect(rt, "no memory")
}

fn copies(rt: &impl Abort, alloc: Global, text: &str, times: usize) -> Vec<String> {
    let mut all = Vec::new(alloc);
    for _ in 0..times {
        all.push(owned(rt, alloc, text)).expect(rt, "no memory");
    }
    all
}

#[test]
fn settings_are_compared(rt: HostRuntime) {
    let alloc = rt.alloc();
    let mut settings = Settings::new(alloc);
    let mut others = Settings::new(alloc);
    compares(&rt, &settings, &others, true);
    settings.shell = Some(interpreter(&rt, alloc, ("sh", "-cu"), 1));
    compares(&rt, &settings, &others, false);
    enlarge(&rt, alloc, &mut settings);
    enlarge(&rt, alloc, &mut others);
    compares(&rt, &settings, &others, true);
    lengthen(&rt, &mut settings.dotenv_command);
    compares(&rt, &settings, &others, false);
    drop(others);
    drop(settings);
}

// Sets a thousand elements and texts of several thousand bytes.
fn enlarge(rt: &impl Abort, alloc: Global, settings: &mut Settings) {
    settings.dotenv_command = list_of(rt, alloc, &["env"; 1000]);
    settings.shell = Some(interpreter(rt, alloc, ("sh", "-c"), 1000));
    settings.tempdir = Some(repeated(rt, alloc, "/ab", 1000));
}

// Adds one element.
fn lengthen(rt: &impl Abort, value: &mut Value) {
    value.push("").expect(rt, "no memory");
}
