//! The laws of sweeps, the contract of a function that does nothing.
ghost use Rattle.pulse_sweep.specs.Laws.{NoneDiffers, PeersAreSame};

/// A sweep tells no two images apart that differ in one confined module's data alone.
pub fn peers()
    ensures same { PeersAreSame }
    ensures none { NoneDiffers }
{
    isolation::two_runs();
    isolation::texts();
}
