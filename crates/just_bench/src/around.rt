// Wrappers around the hosts of cases.

ghost use Rattle.std.specs.Prelude.{◌≡◌};
ghost use Rattle.just_bench.specs.Prelude.{ScriptedHost, failing_view};

use just_host::host::Host;
use just_script::fail_at::{FailAt, How};
use just_script::scripted_host::ScriptedHost;

/// A wrapper around the hosts of cases. `gives` relates the host of a case to the wrapped host.
pub(crate) trait Around {
    type Made: Host + Drop;

    ghost gives: { Self → ScriptedHost → Self.Made → Type 0 };

    /// The host that an evaluation asks, which wraps the host of a case. It allocates nothing.
    fn around(&self, host: ScriptedHost) -> Self::Made
        ensures { gives self.now host result };
}

/// No wrapper: the host of a case itself is asked.
#[derive(Drop)]
pub(crate) struct Bare {}

impl Around for Bare {
    type Made = ScriptedHost;

    ghost gives = { λ _ host made. made ≡ host };

    fn around(&self, host: ScriptedHost) -> ScriptedHost {
        host
    }
}

/// A host that fails from some question on.
#[derive(Drop)]
pub(crate) struct Failing {
    /// How many questions are passed on.
    pub(crate) passed: usize,
    pub(crate) how: How,
}

impl Around for Failing {
    type Made = FailAt<ScriptedHost>;

    ghost gives = { λ self host made. failing_view made ≡ record { host = host; left = self.passed; how = self.how } };

    fn around(&self, host: ScriptedHost) -> FailAt<ScriptedHost> {
        FailAt::new(host, self.passed, self.how)
    }
}
