//! Writing a system as the bytes of its file.
ghost use Rattle.std.specs.Prelude.{◌≡◌, ◌≤◌, ◌++◌, length, drop, is_ok, IfOk, if◌then◌else◌};
ghost use Rattle.systems.specs.Refused.{unless};
ghost use Rattle.files.specs.SystemWrite.{system_bytes, system_write_refusal, write_fault, ReadsBack};

use crate::small::SmallSystem;
use codec::WriteFault;
use systems::{LayoutFault, System};

/// Why a system is not written, with the number of that refusal.
// No `Layout(LayoutFault)`: two of a layout's cases, `TooShort` and `NextState`, never come here.
#[derive(Clone, Copy, Debug, PartialEq, Eq)]
pub enum SystemWriteFault {
    /// It has more than 256 states.
    States = LayoutFault::States as isize,
    /// It has more than 8 channels.
    Channels = LayoutFault::Channels as isize,
    /// A side has more than 16 moves at a state.
    Moves = LayoutFault::Moves as isize,
    /// There are fewer bytes than its file takes.
    TooFewBytes = WriteFault::TooFewBytes as isize,
}

impl SystemWriteFault {
    /// The number of the refusal.
    pub fn number(self) -> u8
        ensures { result ≡ system_write_refusal self }
    {
        // a cast, which gives the numbers above
        self as u8
    }
}

impl<S: System> SmallSystem<'_, S> {
    /// How many bytes the system takes.
    fn measure(&self) -> usize
        ensures { result ≡ length (system_bytes (S.System.meaning self.now.system.now)) }
    {
        self.put(&mut [])
    }

    /// Puts the system in front of the bytes, which have room for it.
    fn put_in_front(&self, bytes: &mut [u8])
        requires { length (system_bytes (S.System.meaning self.now.system.now)) ≤ length bytes.old }
        ensures bytes { bytes.new ≡ system_bytes (S.System.meaning self.now.system.now) ++ drop (length (system_bytes (S.System.meaning self.now.system.now))) bytes.old }
        ensures reads_back { ReadsBack (S.System.meaning self.now.system.now) bytes.new (length (system_bytes (S.System.meaning self.now.system.now))) }
    {
        self.put(bytes);
    }
}

/// Writes the file of the system in front of the bytes, and answers how many bytes it takes.
///
/// Everything is tested before the first byte is written, so a refused write changes no byte.
pub fn write_system<S: System>(system: &S, bytes: &mut [u8]) -> Result<usize, SystemWriteFault>
    ensures answer { result ≡ unless (write_fault (S.System.meaning system.now) (length bytes.old)) (length (system_bytes (S.System.meaning system.now))) }
    ensures bytes { bytes.new ≡ (if is_ok result then system_bytes (S.System.meaning system.now) ++ drop (length (system_bytes (S.System.meaning system.now))) bytes.old else bytes.old) }
    ensures reads_back { IfOk result (λ count. ReadsBack (S.System.meaning system.now) bytes.new count) }
{
    let small = SmallSystem::new(system)?;
    let count = small.measure();
    if bytes.len() < count {
        return Err(SystemWriteFault::TooFewBytes);
    }
    small.put_in_front(bytes);
    Ok(count)
}
