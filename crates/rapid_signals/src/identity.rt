// The identifier of a node.

ghost use Rattle.std.specs.Prelude.{◌≡◌, None, Ok, IfOk, IfErr, IfSome, slice_index};
ghost use Rattle.uuid.specs.Parts.{variant_of};
ghost use Rattle.uuid.specs.Uuid.{version_num};
ghost use Rattle.uuid.specs.declared.Variant.TheVariants.{RFC4122};
ghost use Rattle.rapid_signals.specs.declared.fault.RunningFault.TheVariants.{NoIdentifier};

use crate::fault::RunningFault;
use rapid_endpoint::ProcessId;
use std::random::RandomSource;
use uuid::Uuid;

/// The identifier that was given, or else one that is drawn from the source: a version 4 UUID.
/// `NoIdentifier` if the source failed.
pub fn identify<S: RandomSource>(
    given: Option<ProcessId>,
    source: &S,
) -> Result<ProcessId, RunningFault>
    ensures given { IfSome given (λ id. result ≡ Ok id) }
    ensures drawn { given ≡ None → IfOk result (λ id. (version_num id ≡ 4) × (variant_of (slice_index id 8) ≡ RFC4122)) }
    ensures fault { IfErr result (λ e. e ≡ NoIdentifier) }
{
    match given {
        Some(id) => Ok(id),
        None => match Uuid::try_new_v4(source) {
            Ok(uuid) => Ok(ProcessId::new(uuid.into_bytes())),
            Err(_) => Err(RunningFault::NoIdentifier),
        },
    }
}
