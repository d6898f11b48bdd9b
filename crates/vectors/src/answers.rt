// The answers that any operation can have.
use console::output;
use refusal::Fault;
use std::io;

pub fn no_vector(rt: HostRuntime) -> io::Result<()> {
    output::byte(rt, 0xFE)
}

// A refusal of the whole, as a handshake, a frame or a packer has it, gives place 0.
pub fn refused(rt: HostRuntime, fault: Fault) -> io::Result<()> {
    output::byte(rt, 0xFF)?;
    output::byte(rt, fault.refusal.number())?;
    output::size(rt, fault.place, 4)
}
