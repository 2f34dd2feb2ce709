// The form of a record: op (1 byte), length (2 bytes), then that many bytes. host/README.md has it.

// The longest payload.
pub(crate) const PAYLOAD_MAX: usize = 2000;

// Why a run stops early: a record breaks the form, or the input ends within it.
#[derive(Clone, Copy)]
pub(crate) struct Broken;

// The calls.
#[derive(Clone, Copy)]
pub(crate) enum Op {
    Start,
    AddPeer,
    AddBinding,
    Lend,
    Receive,
    Tick,
    View,
    Wrap,
    Observe,
    Save,
    Load,
}

impl Op {
    // How many bytes the fields of a payload take that is neither a packet, a frame nor an image.
    fn fields(self) -> Option<usize> {
        match self {
            Op::Start | Op::Lend => Some(8),
            Op::AddPeer => Some(4),
            Op::AddBinding => Some(13),
            Op::Tick => Some(0),
            Op::View => Some(17),
            Op::Observe => Some(12),
            Op::Save => Some(2),
            Op::Receive | Op::Wrap | Op::Load => None,
        }
    }
}

impl TryFrom<u8> for Op {
    type Error = Broken;

    fn try_from(number: u8) -> Result<Op, Broken> {
        match number {
            1 => Ok(Op::Start),
            2 => Ok(Op::AddPeer),
            3 => Ok(Op::AddBinding),
            4 => Ok(Op::Lend),
            5 => Ok(Op::Receive),
            6 => Ok(Op::Tick),
            7 => Ok(Op::View),
            8 => Ok(Op::Wrap),
            9 => Ok(Op::Observe),
            10 => Ok(Op::Save),
            11 => Ok(Op::Load),
            _ => Err(Broken),
        }
    }
}

// As it is: the payload is a part of room that is lent, and no vector: the program needs no heap.
#[derive(Clone, Copy)]
pub(crate) struct Record<'a> {
    pub op: Op,
    pub payload: &'a [u8],
}

impl<'a> Record<'a> {
    // The next record, if there is one. An input that cannot be read ends there. A payload whose length is not its call's is not read.
    pub(crate) fn read(room: &'a mut [u8; PAYLOAD_MAX]) -> Result<Option<Record<'a>>, Broken> {
        let mut head = [0u8; 3];
        let read = io::read_full(0, &mut head);
        if read == 0 {
            return Ok(None);
        }
        if read < head.len() {
            return Err(Broken);
        }
        let [number, high, low] = head;
        let op = Op::try_from(number)?;
        let length = usize::from(u16::from_be_bytes([high, low]));
        if op.fields().is_some_and(|bytes| length != bytes) {
            return Err(Broken);
        }
        let payload = room.get_mut(..length).ok_or(Broken)?;
        if io::read_full(0, payload) < length {
            return Err(Broken);
        }
        Ok(Some(Record { op, payload }))
    }
}

// The fields of a payload, which are big-endian numbers, read from the front.
#[derive(Clone, Copy)]
pub(crate) struct Fields<'a> {
    rest: &'a [u8],
}

impl<'a> Fields<'a> {
    pub(crate) fn of(payload: &'a [u8]) -> Fields<'a> {
        Fields { rest: payload }
    }

    fn bytes<const N: usize>(&mut self) -> Result<[u8; N], Broken> {
        let (bytes, rest) = self.rest.split_first_chunk::<N>().ok_or(Broken)?;
        self.rest = rest;
        Ok(*bytes)
    }

    // As it is: one line each over `bytes`, since no const parameter gives a number's type its width.
    pub(crate) fn u8(&mut self) -> Result<u8, Broken> {
        Ok(u8::from_be_bytes(self.bytes()?))
    }

    pub(crate) fn u16(&mut self) -> Result<u16, Broken> {
        Ok(u16::from_be_bytes(self.bytes()?))
    }

    pub(crate) fn u32(&mut self) -> Result<u32, Broken> {
        Ok(u32::from_be_bytes(self.bytes()?))
    }

    pub(crate) fn u64(&mut self) -> Result<u64, Broken> {
        Ok(u64::from_be_bytes(self.bytes()?))
    }

    // What stands behind the fields.
    pub(crate) fn rest(self) -> &'a [u8] {
        self.rest
    }

    // Nothing stands behind the fields.
    pub(crate) fn end(self) -> Result<(), Broken> {
        if self.rest.is_empty() {
            Ok(())
        } else {
            Err(Broken)
        }
    }
}
