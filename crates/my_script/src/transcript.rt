//! What a run came to, as data.

use my_handshake::ServerVersion;
use my_link::Met;
use my_reading::{Answer, Call, Error};
use my_reply::OkPacket;
use my_statements::Statement;
use my_value::Row;

/// What one poll of a call, or one dial, met outside.
#[derive(Clone, Copy, PartialEq, Eq)]
pub struct Use {
    /// The connection's number.
    pub number: u64,
    pub met: Met,
}

/// What a step came to: one variant for each kind of answer line.
#[derive(Drop)]
pub enum Outcome {
    /// `ok`
    Done,
    /// `pending`
    Pending,
    /// `end`: the set that is read ended.
    SetEnd,
    /// `none`: nothing is left to be read.
    NoSet,
    /// `row V V`
    Row(Row),
    /// `rows N [V V] [V V]`
    Rows(Vec<Row>),
    /// `stmt S id=I params=P columns=K`, where S is how many such answers came before.
    Prepared(Statement),
    /// `flag 1` or `flag 0`: whether the server has the command of the call.
    Flag(bool),
    /// `ok affected=A insert=I warnings=W status=F info=b:HEX`, or `ok -` where there is no OK.
    Fields(Option<OkPacket>),
    /// `conn C id=I version=A.B.C`
    Connected(u64, u32, ServerVersion),
    /// `error` with the error.
    Failed(Error),
    /// `refused NoSuchHandle`
    NoSuchHandle,
}

/// The answer to a step, which has a number from 1, with one use for each poll and dial that it made.
#[derive(Drop)]
pub struct StepAnswer {
    pub number: u64,
    pub outcome: Outcome,
    pub uses: Vec<Use>,
}

/// A call of a connection. The answer is none where the call is still open.
#[derive(Drop)]
pub struct TapeCall {
    pub call: Call,
    /// How many bytes were sent when it began.
    pub sent_from: u64,
    pub answer: Option<Result<Answer, Error>>,
}

/// What a connection sent and took, and its calls.
#[derive(Drop)]
pub struct Tape {
    pub number: u64,
    pub sent: Vec<u8>,
    pub taken: Vec<u8>,
    pub calls: Vec<TapeCall>,
}

/// The answers to a run's steps, and the tapes of its connections by their numbers.
#[derive(Drop)]
pub struct Transcript {
    pub answers: Vec<StepAnswer>,
    pub tapes: Vec<Tape>,
}
