//! What a caller introduces a session by, from bytes.

ghost use Rattle.std.specs.Prelude.{◌≡◌, IfErr, IfOk};
ghost use Rattle.zk_frames.specs.Frame.{frame};
ghost use Rattle.zk_agent.specs.Credentials.{auth_payload};
ghost use Rattle.ffi_device.specs.Codes.{code_of, refusal_code};
ghost use Rattle.ffi_device.specs.Credentials.{RefusesCredential};
ghost use Rattle.ffi_device.specs.Steps.{Introduces, Steps};

use crate::device::Device;
use crate::refusal::DeviceRefusal;
use std::alloc::Global;
use zk_agent::{AgentInput, Credential};
use zk_frames::PutFault;

// The credential of a scheme and a secret. A refusal is `NotText`, else `CredentialTooLarge`, else `Memory`.
fn credential_of(
    alloc: Global,
    scheme: &[u8],
    secret: &[u8],
) -> Result<Credential<Global>, DeviceRefusal>
    ensures frame { IfOk result (λ credential. credential.frame.items ≡ frame (auth_payload scheme.now secret.now)) }
    ensures refused { IfErr result (λ refusal. RefusesCredential scheme.now secret.now (refusal_code refusal)) }
{
    let Ok(scheme) = std::str::from_utf8(scheme) else {
        return Err(DeviceRefusal::NotText);
    };
    match Credential::new(alloc, scheme, secret) {
        Ok(credential) => Ok(credential),
        Err(PutFault::TooLarge) => Err(DeviceRefusal::CredentialTooLarge),
        Err(PutFault::Memory) => Err(DeviceRefusal::Memory),
    }
}

impl Device {
    /// Introduces the session by a scheme and a secret from now on, on each connection. A refusal before a step is `NotText`, else
    /// `CredentialTooLarge`, else `Memory`.
    #[tactic(auto, using(crate::proofs::Refusing::refuses))]
    pub fn credential_at(
        &mut self,
        alloc: Global,
        now: u64,
        scheme: &[u8],
        secret: &[u8],
    ) -> Result<(), DeviceRefusal>
        ensures { Steps (RefusesCredential scheme.now secret.now) now (Introduces (frame (auth_payload scheme.now secret.now))) self.old
            (code_of result) self.new }
    {
        let credential = credential_of(alloc, scheme, secret)?;
        self.step_at(now, AgentInput::Credential(credential))
    }
}
