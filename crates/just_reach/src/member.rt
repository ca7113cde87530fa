// What evaluation may reach.

ghost use Rattle.std.specs.Prelude.{◌≡◌};
ghost use Rattle.just_reach.specs.Prelude.{asks, builtin_of, is_shell, may_ask, may_run_command, member_token};
ghost use Rattle.just_reach.specs.Prelude.{member_view, token_view};

use just_builtins::builtin::Builtin;
use just_builtins::function::Function;
use just_syntax::name::Name;
use just_syntax::number::Number;
use just_syntax::token::Token;
use just_syntax::unstyled::write_unstyled;
use std::fmt;

/// What evaluation may reach, with its place. It borrows the text of a command from the syntax.
#[derive(Clone, Copy, Debug, PartialEq)]
pub enum Member<'src, 'a> {
    /// A call of a built-in function. The file defines no function of that name.
    BuiltIn {
        name: Name<'src>,
        function: Function,
    },
    /// A call of a function that the file defines. Its body may be evaluated, so what occurs there is reached too.
    Call {
        name: Name<'src>,
    },
    /// A command in backticks, with its text.
    Command {
        contents: &'a str,
        token: Token<'src>,
    },
    /// A call of a name that stands for no function: evaluation refuses it. For example, the name is unknown, or is
    /// that of a function of upstream that is left out here.
    Unknown {
        name: Name<'src>,
    },
    /// A variable that is read, with its number, if it has one. In the body of a function it may be a parameter.
    Variable {
        name: Name<'src>,
        number: Option<Number>,
    },
}

impl<'src> Member<'src, '_> {
    /// The token where it occurs: that of the called name, of the command or of the variable.
    pub fn token(&self) -> Token<'src>
        ensures { token_view result ≡ member_token (member_view self.now) }
    {
        match self {
            Member::BuiltIn { name, function: _ }
            | Member::Call { name }
            | Member::Unknown { name }
            | Member::Variable { name, number: _ } => name.token,
            Member::Command { contents: _, token } => *token,
        }
    }

    /// Whether evaluation may ask the host anything there: it is a command in backticks, or a call of a built-in
    /// function that asks, as `env` or `read` do. If no member of a list may ask, the host is asked nothing.
    pub fn may_ask(&self) -> bool
        ensures { result ≡ may_ask (member_view self.now) }
    {
        match self {
            Member::BuiltIn { name: _, function } => asks(tag(function)),
            Member::Command {
                contents: _,
                token: _,
            } => true,
            _ => false,
        }
    }

    /// Whether evaluation may have the host run a command there: it is a command in backticks, or a call of `shell`. If
    /// no member of a list may, no command is run.
    pub fn may_run_command(&self) -> bool
        ensures { result ≡ may_run_command (member_view self.now) }
    {
        match self {
            Member::BuiltIn { name: _, function } => is_shell(tag(function)),
            Member::Command {
                contents: _,
                token: _,
            } => true,
            _ => false,
        }
    }
}

// The tag of a built-in function, without its shape.
fn tag(function: &Function) -> Builtin
    ensures { result ≡ builtin_of function.now }
{
    match function {
        Function::Nullary(builtin)
        | Function::Unary(builtin)
        | Function::UnaryMap(builtin)
        | Function::UnaryPlus(builtin)
        | Function::UnaryToValue(builtin)
        | Function::Binary(builtin)
        | Function::BinaryOptToValue(builtin)
        | Function::BinaryOptValueStr(builtin)
        | Function::BinaryOptValueStrToValue(builtin)
        | Function::BinaryPlus(builtin)
        | Function::BinaryStrValue(builtin)
        | Function::BinaryToValue(builtin)
        | Function::Ternary(builtin)
        | Function::ValueNullary(builtin)
        | Function::ValueUnary(builtin)
        | Function::ValueBinary(builtin)
        | Function::ValueBinaryOpt(builtin) => *builtin,
    }
}

// Whether a built-in function asks the host, with some arguments.
fn asks(builtin: Builtin) -> bool
    ensures { result ≡ asks builtin }
{
    match builtin {
        Builtin::Arch
        | Builtin::CacheDirectory
        | Builtin::Canonicalize
        | Builtin::ConfigDirectory
        | Builtin::ConfigLocalDirectory
        | Builtin::DataDirectory
        | Builtin::DataLocalDirectory
        | Builtin::Env
        | Builtin::EnvVar
        | Builtin::EnvVarOrDefault
        | Builtin::ExecutableDirectory
        | Builtin::HomeDirectory
        | Builtin::JustExecutable
        | Builtin::JustPid
        | Builtin::NumCpus
        | Builtin::Os
        | Builtin::OsFamily
        | Builtin::PathExists
        | Builtin::Read
        | Builtin::Require
        | Builtin::RuntimeDirectory
        | Builtin::Shell
        | Builtin::Which => true,
        _ => false,
    }
}

// Whether it is `shell`.
fn is_shell(builtin: Builtin) -> bool
    ensures { result ≡ is_shell builtin }
{
    match builtin {
        Builtin::Shell => true,
        _ => false,
    }
}

// What it is, with its text in backticks, as in "command `uname -m`".
impl fmt::Display for Member<'_, '_> {
    ghost use Rattle.std.specs.Prelude.{Some};
    ghost use Rattle.just_reach.specs.Member.{member_text};
    ghost use Rattle.just_reach.specs.View.{member_view};

    ghost output = { λ member. Some (member_text (member_view member)) };

    ghost styled_output = { λ member _. Some (member_text (member_view member)) };

    fn fmt<W: fmt::Write>(&self, f: &mut fmt::Formatter<W>) -> fmt::Result {
        match self {
            Member::BuiltIn { name, function: _ } => {
                write_unstyled(f, format_args!("built-in function `{name}`"))
            }
            Member::Call { name } => write_unstyled(f, format_args!("call of `{name}`")),
            Member::Command { contents, token: _ } => {
                write_unstyled(f, format_args!("command `{contents}`"))
            }
            Member::Unknown { name } => {
                write_unstyled(f, format_args!("unknown function `{name}`"))
            }
            Member::Variable { name, number: _ } => {
                write_unstyled(f, format_args!("variable `{name}`"))
            }
        }
    }
}
