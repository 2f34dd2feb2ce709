// The calls, each with its line.
use crate::hash::{detector_hash, endpoint_hash};
use crate::line::{Added, Cut, Lies, Saved, Seen, Wrapped};
use crate::record::{Broken, Fields, Op, PAYLOAD_MAX, Record};
use detector::detector::Detector;
use endpoint::answer::{Place, Received};
use endpoint::code::{config_answer_code, received_code, received_offset};
use endpoint::config::Endpoint;
use endpoint::view::{cut, view};
use image::code::load_code;
use image::load::load;
use image::save::save;
use program::number::{fill, hash};
use std::fmt::Write;

// What every byte of an output is before a wrap or a save.
const UNWRITTEN: u8 = 0xAA;

// The most memory that a record lends.
const LENT_MAX: usize = 60000;

// The endpoint, the detector that starts with it, the memory, of which the first `lent` bytes are lent, and the last packet, the first `received` bytes of its
// room, which stays for the views after it.
// As it is: arrays with a count, and no vectors: the program needs no heap.
#[derive(Drop)]
pub(crate) struct Run {
    endpoint: Endpoint,
    detector: Detector,
    memory: [u8; LENT_MAX],
    lent: usize,
    packet: [u8; PAYLOAD_MAX],
    received: usize,
}

impl Run {
    pub(crate) fn new() -> Run {
        Run {
            endpoint: Endpoint::start(0, 0, 0).endpoint,
            detector: Detector::start(),
            memory: [0; LENT_MAX],
            lent: 0,
            packet: [0; PAYLOAD_MAX],
            received: 0,
        }
    }

    // Makes the call of a record.
    pub(crate) fn make(&mut self, out: &mut impl Write, record: Record<'_>) -> Result<(), Broken> {
        let Record { op, payload } = record;
        let fields = Fields::of(payload);
        match op {
            Op::Start => self.start(out, fields),
            Op::AddPeer => self.add_peer(out, fields),
            Op::AddBinding => self.add_binding(out, fields),
            Op::Lend => self.lend(out, fields),
            Op::Receive => self.receive(out, payload),
            Op::Tick => self.tick(out, fields),
            Op::View => self.view(out, fields),
            Op::Wrap => self.wrap(out, fields),
            Op::Observe => self.observe(out, fields),
            Op::Save => self.save(out, fields),
            Op::Load => self.load(out, payload),
        }
    }

    // With an endpoint in place of the run's, and the empty detector that starts with it.
    fn restart(&mut self, endpoint: Endpoint) {
        self.endpoint = endpoint;
        self.detector = Detector::start();
    }

    // A refused start empties the detector too.
    fn start(&mut self, out: &mut impl Write, mut fields: Fields<'_>) -> Result<(), Broken> {
        let own = fields.u32()?;
        let port = fields.u16()?;
        let mtu = fields.u16()?;
        fields.end()?;
        let started = Endpoint::start(own, u32::from(port), u32::from(mtu));
        self.restart(started.endpoint);
        let _ = writeln!(out, "start {}", config_answer_code(&started.answer));
        Ok(())
    }

    fn add_peer(&mut self, out: &mut impl Write, mut fields: Fields<'_>) -> Result<(), Broken> {
        let address = fields.u32()?;
        fields.end()?;
        let _ = writeln!(out, "peer {}", Added(self.endpoint.add_peer(address)));
        Ok(())
    }

    fn add_binding(&mut self, out: &mut impl Write, mut fields: Fields<'_>) -> Result<(), Broken> {
        let peer = fields.u16()?;
        let kind = fields.u8()?;
        let network = fields.u64()?;
        let tenant = fields.u16()?;
        fields.end()?;
        let added = self.endpoint.add_binding(
            u32::from(peer),
            u32::from(kind),
            network,
            u32::from(tenant),
        );
        let _ = writeln!(out, "binding {}", Added(added));
        Ok(())
    }

    fn lend(&mut self, out: &mut impl Write, mut fields: Fields<'_>) -> Result<(), Broken> {
        let length = fields.u32()? as usize;
        let seed = fields.u32()?;
        fields.end()?;
        let memory = self.memory.get_mut(..length).ok_or(Broken)?;
        fill(memory, u64::from(seed));
        let _ = writeln!(out, "memory {length} {}", hash(0, memory));
        self.lent = length;
        Ok(())
    }

    fn receive(&mut self, out: &mut impl Write, packet: &[u8]) -> Result<(), Broken> {
        let memory = self.memory.get_mut(..self.lent).ok_or(Broken)?;
        let room = self.packet.get_mut(..packet.len()).ok_or(Broken)?;
        room.copy_from_slice(packet);
        self.received = packet.len();
        let answer = self.endpoint.receive(packet, memory);
        let _ = write!(
            out,
            "receive {} {}",
            received_code(answer),
            received_offset(answer)
        );
        let _ = if let Ok(Received::Delivered(target, place)) = answer {
            let frame = view(packet, memory, place);
            write!(
                out,
                " {} {}{} {}",
                target.tenant,
                target.binding,
                Lies(place),
                hash(0, frame)
            )
        } else {
            write!(out, " - - packet 0 0 0")
        };
        let _ = writeln!(out, " {}", hash(0, memory));
        Ok(())
    }

    // A tick always succeeds: 0.
    fn tick(&mut self, out: &mut impl Write, fields: Fields<'_>) -> Result<(), Broken> {
        fields.end()?;
        self.endpoint.tick();
        let _ = writeln!(out, "tick {}", 0);
        Ok(())
    }

    // A slice does not tell where it lies, so the start is what the library's `cut` says of the same place. Length and hash are the slice's own.
    fn view(&self, out: &mut impl Write, mut fields: Fields<'_>) -> Result<(), Broken> {
        let slice = fields.u8()?;
        let start = fields.u64()? as usize;
        let length = fields.u64()? as usize;
        fields.end()?;
        if 1 < slice {
            return Err(Broken);
        }
        let place = Place {
            start,
            length,
            in_memory: slice == 1,
        };
        let packet = self.packet.get(..self.received).ok_or(Broken)?;
        let memory = self.memory.get(..self.lent).ok_or(Broken)?;
        let bytes = view(packet, memory, place);
        let part = cut(packet.len(), memory.len(), place);
        let _ = writeln!(
            out,
            "view {} {} {}",
            Cut { place, part },
            bytes.len(),
            hash(0, bytes)
        );
        Ok(())
    }

    // The frame stands behind the numbers.
    fn wrap(&self, out: &mut impl Write, mut fields: Fields<'_>) -> Result<(), Broken> {
        let binding = fields.u16()?;
        let segment = fields.u32()?;
        let identifier = fields.u32()?;
        let room = fields.u16()?;
        let mut output = [UNWRITTEN; PAYLOAD_MAX];
        let output = output.get_mut(..usize::from(room)).ok_or(Broken)?;
        let answer = self.endpoint.wrap(
            u32::from(binding),
            fields.rest(),
            segment,
            identifier,
            output,
        );
        let _ = writeln!(out, "wrap {} {}", Wrapped(answer), hash(0, output));
        Ok(())
    }

    fn observe(&mut self, out: &mut impl Write, mut fields: Fields<'_>) -> Result<(), Broken> {
        let tenant = fields.u16()?;
        let peer = fields.u16()?;
        let address = fields.u64()?;
        fields.end()?;
        let seen = self.detector.observe(tenant, peer, address);
        let _ = writeln!(
            out,
            "observe {} {}",
            Seen(seen),
            detector_hash(&self.detector)
        );
        Ok(())
    }

    fn save(&self, out: &mut impl Write, mut fields: Fields<'_>) -> Result<(), Broken> {
        let room = fields.u16()?;
        fields.end()?;
        let mut output = [UNWRITTEN; PAYLOAD_MAX];
        let output = output.get_mut(..usize::from(room)).ok_or(Broken)?;
        let answer = save(&self.endpoint, output);
        let _ = writeln!(out, "save {} {}", Saved(answer), hash(0, output));
        Ok(())
    }

    // A refused load leaves endpoint and detector as they are.
    fn load(&mut self, out: &mut impl Write, bytes: &[u8]) -> Result<(), Broken> {
        let loaded = load(bytes);
        let _ = writeln!(
            out,
            "load {} {}",
            load_code(loaded.answer),
            endpoint_hash(&loaded.endpoint)
        );
        if loaded.answer.is_ok() {
            self.restart(loaded.endpoint);
        }
        Ok(())
    }
}
