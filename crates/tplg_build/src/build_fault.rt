// Why a topology is not built.
ghost use Rattle.std.specs.Prelude.{◌≡◌};
ghost use Rattle.tplg_build.specs.declared.build_fault.BuildFault.TheVariants.{OutOfMemory};

use sof_base::NoMemory;

/// Why a topology is not built.
#[derive(Clone, Copy, Debug, PartialEq, Eq)]
pub enum BuildFault {
    /// The source is beyond the limits of the builder.
    TooLarge,
    OutOfMemory,
}

impl From<NoMemory> for BuildFault {
    ghost from_gives = { λ _ e. e ≡ OutOfMemory };

    fn from(_fault: NoMemory) -> BuildFault {
        BuildFault::OutOfMemory
    }
}
