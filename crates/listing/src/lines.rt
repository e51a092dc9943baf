// A ring page in words: a line for the header, and lines for each request.
use abi::{Kind, RingHeader};
use ringpage::Request;
use std::fmt;

/// The header, with the kind of ring.
#[derive(Clone, Copy)]
pub struct HeaderLine {
    pub kind: Kind,
    pub header: RingHeader,
}

impl fmt::Display for HeaderLine {
    fn fmt<W: fmt::Write>(&self, f: &mut fmt::Formatter<W>) -> fmt::Result {
        let HeaderLine { kind, header: h } = self;
        write!(
            f,
            "header: kind {kind}, req_prod {}, req_event {}, rsp_prod {}, rsp_event {}",
            h.req_prod, h.req_event, h.rsp_prod, h.rsp_event
        )
    }
}

/// A request, with its index and slot; each segment of a block request has a line of its own.
#[derive(Clone, Copy)]
pub struct RequestLines {
    pub index: u32,
    pub slot: u32,
    pub request: Request,
}

impl fmt::Display for RequestLines {
    fn fmt<W: fmt::Write>(&self, f: &mut fmt::Formatter<W>) -> fmt::Result {
        write!(f, "request {} in slot {}: ", self.index, self.slot)?;
        match &self.request {
            Request::OfBlock(m) => {
                write!(
                    f,
                    "operation {}, count {}, id {}, sector {}",
                    m.operation, m.count, m.id, m.sector
                )?;
                for (i, s) in m.segments.iter().take(usize::from(m.count)).enumerate() {
                    write!(
                        f,
                        "\n  segment {i}: reference {}, first {}, last {}",
                        s.reference, s.first, s.last
                    )?;
                }
                Ok(())
            }
            Request::OfSend(m) => write!(
                f,
                "reference {}, offset {}, flags {}, id {}, size {}",
                m.reference, m.offset, m.flags, m.id, m.size
            ),
            Request::OfReceive(m) => write!(f, "id {}, reference {}", m.id, m.reference),
        }
    }
}
