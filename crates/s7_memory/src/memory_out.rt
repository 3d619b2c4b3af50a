//! An output in memory.
ghost use Rattle.std.specs.Prelude.{◌≡◌, ◌+◌, ◌-◌, ◌≤◌, ◌↔◌, ◌++◌, length, take, IsOk, OnOk, OnErr, IfOk};
ghost use Rattle.std.specs.Io.KnownBytes.{append_known};
ghost use Rattle.s7_outer.specs.Count.{Rose, raised};
ghost use Rattle.s7_outer.specs.Out.{AppendsPrefix};

use s7_outer::{Buffer, Memory, Out, OutFailed, raise};
use std::alloc::Global;

/// An output in memory, which fails once its room is used up.
#[derive(Drop)]
pub struct MemoryOut {
    output: Buffer,
    faults: u64,
}

impl MemoryOut {
    ghost use Rattle.s7_memory.specs.MemoryOut.{output_of, empty_output, text_of, room_of};

    /// An empty output with room for `room` octets, allocated here. Returns `Memory` if the allocation fails.
    pub fn new(alloc: Global, room: usize) -> Result<MemoryOut, Memory>
        ensures shown { IfOk result (λ out. output_of out ≡ empty_output) }
        ensures room { IfOk result (λ out. room_of out ≡ room) }
    {
        Ok(MemoryOut {
            output: Buffer::new(alloc, room)?,
            faults: 0,
        })
    }

    /// The text so far.
    pub fn text(&self) -> &[u8]
        ensures { result.now ≡ text_of self.now }
    {
        self.output.as_slice()
    }
}

impl Out for MemoryOut {
    ghost use Rattle.s7_memory.specs.MemoryOut.{output_of, text_of, room_of};

    ghost shows = { output_of };

    /// Appends as much of the text as there is room for. `OutFailed` is returned exactly if that isn't the whole
    /// text, and is counted once.
    fn put(&mut self, piece: &[u8]) -> Result<(), OutFailed>
        ensures ok { OnOk result ((output_of self.new).text ≡ append_known (output_of self.old).text piece.now) }
        ensures err { OnErr result (AppendsPrefix (output_of self.old).text (output_of self.new).text piece.now) }
        ensures failed { OnErr result (Rose (output_of self.old).faults (output_of self.new).faults) }
        ensures faults { (output_of self.old).faults ≤ (output_of self.new).faults }

        ensures fits { IsOk result ↔ (length (text_of self.old) + length piece.now ≤ room_of self.old) }
        ensures text { text_of self.new
            ≡ text_of self.old ++ take (room_of self.old - length (text_of self.old)) piece.now }
        ensures counted_ok { OnOk result ((output_of self.new).faults ≡ (output_of self.old).faults) }
        ensures counted { OnErr result ((output_of self.new).faults ≡ raised (output_of self.old).faults) }
        ensures room { room_of self.new ≡ room_of self.old }
    {
        let free = self.output.room() - self.output.as_slice().len();
        if piece.len() <= free {
            self.output.add(piece);
            Ok(())
        } else {
            self.output.add(&piece[..free]);
            raise(&mut self.faults);
            Err(OutFailed)
        }
    }
}
