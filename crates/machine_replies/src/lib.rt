//! What the vendor's tool reads off a trace that the machine wrote: the bytes that the machine sent.
//!
//! Laws alone, over the definitions of the machine and of the tool, each the contract of a function that does nothing.
#![tactic(auto)]

ghost use Rattle.machine_replies.specs.Laws.{CyclesAreTold, GenuineWasSent, MachineTracesAreRead};

/// Every trace of a machine is read, as the bytes that it sent, and a challenge is called genuine exactly where the sixteen
/// that it sent in its place are the module's tag of the nonce.
pub fn machine_replies()
    ensures told { CyclesAreTold }
    ensures read { MachineTracesAreRead }
    ensures genuine { GenuineWasSent }
{}
