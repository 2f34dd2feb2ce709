// Why a packet or a frame is not what a format asks for, as fine as the causes are.
// `finding_of` of specs/Refusal.antt gives each its number of the documents' table, and the byte that it names.
ghost use Rattle.std.specs.Prelude.{◌≡◌};
ghost use Rattle.wire.specs.Refusal.{code_of, finding_of};

#[derive(Clone, Copy)]
pub enum Refusal {
    // IPv4
    Truncated,
    Version,
    HeaderLength,
    TotalLength,
    HeaderChecksum,
    Fragment,
    // carriage
    Protocol,
    Port,
    Short,
    UdpLength,
    TcpLength,
    DataOffset,
    UdpChecksum,
    TcpChecksum,
    // tunnel
    VxlanFlag,
    GreFlags,
    GreVersion,
    GreTypeHigh,
    GreTypeLow,
    SttVersion,
    SttFlags,
    // inner frame
    FrameLength,
    FrameTag,
}

impl Refusal {
    // The number of the documents' table.
    #[tactic(auto, unfolding(crate::specs::Refusal::finding_of))]
    pub fn code(self) -> u8
        ensures { result ≡ code_of self }
    {
        match self {
            Refusal::Truncated | Refusal::Version | Refusal::HeaderLength | Refusal::TotalLength =>
                3,
            Refusal::HeaderChecksum => 4,
            Refusal::Fragment => 5,
            Refusal::Protocol | Refusal::Port => 8,
            Refusal::Short | Refusal::UdpLength | Refusal::TcpLength | Refusal::DataOffset => 9,
            Refusal::UdpChecksum | Refusal::TcpChecksum => 10,
            Refusal::VxlanFlag => 25,
            Refusal::GreFlags | Refusal::GreVersion => 26,
            Refusal::GreTypeHigh | Refusal::GreTypeLow => 27,
            Refusal::SttVersion => 28,
            Refusal::SttFlags => 29,
            Refusal::FrameLength | Refusal::FrameTag => 13,
        }
    }

    // The offset of the first offending byte: in the packet, whose IP payload begins at `start`, or in the STT frame. 0 where the answer names no byte.
    #[tactic(auto, unfolding(crate::specs::Refusal::finding_of))]
    pub fn offset(self, start: u8) -> u16
        ensures { result ≡ (finding_of start self).offset }
    {
        let at = start as u16;
        match self {
            Refusal::VxlanFlag => at + 8,
            Refusal::GreFlags => at,
            Refusal::GreVersion => at + 1,
            Refusal::GreTypeHigh => at + 2,
            Refusal::GreTypeLow => at + 3,
            Refusal::SttFlags => 1,
            _ => 0,
        }
    }
}
