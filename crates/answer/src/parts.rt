// The four parts of an answer.
ghost use Rattle.std.specs.Prelude.{◌≡◌, pos};
ghost use Rattle.answer.specs.Parts.{fault_number, fault_layer, of_ring, answer_parts, plain};

use crate::fault::HostFault;
use crate::reply::Answer;
use abi::GrantStatus;
use ring::Layer as RingLayer;

/// The layer in which a fault was met.
#[derive(Clone, Copy, Debug, PartialEq, Eq)]
pub enum Layer {
    NoLayer,
    InHost,
    InFrame,
    InGrant,
    InEvent,
    InDevice,
    InRing,
}

/// The four parts of an answer: the answer itself, and where something was refused the layer, the number and the
/// segment.
#[derive(Clone, Copy, Debug, PartialEq, Eq)]
pub struct AnswerParts {
    pub answer: i64,
    pub layer: Layer,
    pub detail: i64,
    pub place: u8,
}

impl From<RingLayer> for Layer {
    ghost from_gives = { λ layer r. r ≡ of_ring layer };

    fn from(layer: RingLayer) -> Layer {
        match layer {
            RingLayer::InGrant => Layer::InGrant,
            RingLayer::InDevice => Layer::InDevice,
            RingLayer::InRing => Layer::InRing,
        }
    }
}

impl HostFault {
    /// The number of the fault.
    pub fn number(self) -> i32
        ensures { result ≡ fault_number self }
    {
        match self {
            HostFault::BadMemory => GrantStatus::BadVirtAddr.number(),
            HostFault::BadCaller => GrantStatus::BadDomain.number(),
            HostFault::OfFrame(fault) => fault.number(),
            HostFault::OfGrant(fault) => fault.number(),
            HostFault::OfEvent(fault) => fault.number(),
            HostFault::OfRing(fault) => fault.number(),
        }
    }

    /// The layer in which the fault was met.
    pub fn layer(self) -> Layer
        ensures { result ≡ fault_layer self }
    {
        match self {
            HostFault::BadMemory | HostFault::BadCaller => Layer::InHost,
            HostFault::OfFrame(_) => Layer::InFrame,
            HostFault::OfGrant(_) => Layer::InGrant,
            HostFault::OfEvent(_) => Layer::InEvent,
            HostFault::OfRing(fault) => Layer::from(fault.layer()),
        }
    }
}

fn plain(answer: u32) -> AnswerParts
    ensures { result ≡ plain answer }
{
    AnswerParts {
        answer: i64::from(answer),
        layer: Layer::NoLayer,
        detail: 0,
        place: 0,
    }
}

/// The four parts of what a call gave, or of its refusal.
pub fn parts_of(res: Result<Answer, HostFault>) -> AnswerParts
    ensures { result ≡ answer_parts res }
{
    match res {
        Ok(Answer::Done | Answer::Idle) => plain(0),
        Ok(Answer::HandedOver | Answer::Completed) => plain(1),
        Ok(Answer::Length(n)) => plain(n),
        Ok(Answer::Handle(n) | Answer::Port(n) | Answer::Connected(n)) => plain(u32::from(n)),
        Ok(Answer::AnsweredNow(miss)) => AnswerParts {
            answer: 2,
            layer: Layer::from(miss.fault.layer()),
            detail: i64::from(miss.fault.number()),
            place: miss.place,
        },
        Err(fault) => AnswerParts {
            answer: i64::from(fault.number()),
            layer: fault.layer(),
            detail: i64::from(fault.number()),
            place: 0,
        },
    }
}
