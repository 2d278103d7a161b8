//! What instances, entities and clients say to one another.

use crate::addresses::Id;
use crate::data::Value;
use crate::names::Name;
use crate::spots::Spots;
use crate::text::Text;

/// Who is answered.
#[derive(Clone, Drop, PartialEq, Eq)]
pub enum Reply {
    /// Nobody.
    None,
    /// The task of an instance with this number.
    Task(u32),
    /// The client's request with this number.
    Request(u32),
}

/// What a task or a request came to.
#[derive(Clone, Drop, PartialEq, Eq)]
pub enum Answer {
    /// The instance or operation ended with a value.
    Done(Value),
    /// It failed with a text.
    Failed(Text),
    /// The instance was started.
    Started,
    /// It was there already.
    Exists,
    /// There is no such flow, class or operation.
    Unknown,
    /// The event was raised.
    Raised,
    /// The instance has ended.
    Ended,
    /// There is nothing by this id.
    None,
    /// The instance hasn't ended.
    Running,
    /// The entity has a value.
    Value(Value),
}

/// What a message says.
#[derive(Drop, PartialEq, Eq)]
pub enum Body {
    /// Start an instance with an argument.
    Start(Value, Reply),
    /// Raise an event with a value, by the request with this number.
    Raise(Name, Value, u32),
    /// How does it stand?
    Query(u32),
    /// What does it end as?
    Wait(u32),
    /// The answer to a reply.
    Result(Reply, Answer),
    /// An entity's operation, with an argument.
    Op(Name, Value, Reply),
    /// The lock of an instance's task, which goes through its set and is at this place.
    Lock(Id, u32, Spots, u8),
    /// All of the set of this task is locked.
    Granted(u32),
    /// The lock is given back.
    Release,
}

/// A message.
#[derive(Drop, PartialEq, Eq)]
pub struct Message {
    /// Who sends it.
    pub from: Id,
    /// Who receives it.
    pub to: Id,
    /// What it says.
    pub body: Body,
}

/// A request of a client.
#[derive(Drop)]
pub struct Request {
    /// Whose it is.
    pub client: Name,
    /// Its number among the client's.
    pub number: u32,
    /// What it sends.
    pub message: Message,
}
