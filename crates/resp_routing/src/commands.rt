//! What is known of a command.

/// A command of the server, or a subcommand.
#[derive(Debug, Drop)]
pub struct CommandInfo {
    /// The name, in lower case, and spaces after it.
    pub name: [u8; 20],
    /// The subcommand's name, in lower case, and spaces after it; all spaces where it is none.
    pub subcommand: [u8; 21],
    /// How many arguments it takes.
    pub arity: Arity,
    /// Which of its arguments are keys.
    pub keys: Keys,
    /// Whether it reads or writes data.
    pub access: Access,
    /// Which nodes a request goes to where no key says so, or where its keys are in several slots.
    pub request_policy: Option<RequestPolicy>,
    /// What is made of the replies of several nodes.
    pub response_policy: Option<ResponsePolicy>,
}

/// How many arguments a command takes, its name among them.
#[derive(Debug, Drop)]
pub enum Arity {
    /// So many.
    Exactly(usize),
    /// So many or more.
    AtLeast(usize),
}

/// Which arguments of a command are keys.
#[derive(Debug, Drop)]
pub enum Keys {
    /// None.
    NoKeys,
    /// Those that this specification names.
    One(KeySpec),
    /// Those that these two name, in this order.
    Two(KeySpec, KeySpec),
    /// Those that these three name, in this order.
    Three(KeySpec, KeySpec, KeySpec),
    /// None; but those that this specification names are names of shard channels, which are at the
    /// slot that keys of that name are at.
    Channels(KeySpec),
    /// The server has no exact specification.
    Unspecified,
    /// Those of its subcommand.
    OfSubcommand,
}

/// A key specification: where keys begin, and which they are from there on.
#[derive(Debug, Drop)]
pub struct KeySpec {
    /// Where they begin.
    pub begin: BeginSearch,
    /// Which they are.
    pub find: FindKeys,
}

/// Where the arguments begin that a key specification is about.
#[derive(Debug, Drop)]
pub enum BeginSearch {
    /// At this argument; the name is argument 0.
    Index(usize),
    /// After this word, in upper or lower case, the first time that it is an argument from this one
    /// on. It has to be there.
    Keyword(Keyword, usize),
    /// The same, where the word is there.
    AnyKeyword(Keyword, usize),
}

/// A word after which keys begin.
#[derive(Debug, Drop)]
pub enum Keyword {
    /// `STORE`.
    Store,
    /// `STOREDIST`.
    StoreDist,
    /// `STREAMS`.
    Streams,
}

/// Which arguments are keys, from the one on where they begin. There has to be one.
#[derive(Debug, Drop)]
pub enum FindKeys {
    /// So many: `range` with a last key of at least 0.
    First(usize),
    /// All but so many at the end: `range` with a negative last key.
    AllBut(usize),
    /// Every second one: `range` with a step of 2.
    EverySecond,
    /// The first half: `range` with a limit of 2.
    FirstHalf,
    /// As many as the first of them says, and the keys follow it: `keynum`. They are at least so
    /// many.
    Counted(usize),
}

/// Whether a command reads or writes data.
#[derive(Clone, Copy, PartialEq, Eq, Debug, Drop)]
pub enum Access {
    /// It reads and writes nothing: `readonly`.
    Reads,
    /// It may write: `write`.
    Writes,
    /// Neither flag.
    Neither,
}

/// Which nodes of a cluster a request goes to.
#[derive(Clone, Copy, PartialEq, Eq, Debug, Drop)]
pub enum RequestPolicy {
    /// All nodes, replicas too: `all_nodes`.
    AllNodes,
    /// All primaries: `all_shards`.
    AllShards,
    /// Those of its keys, each with a request of the keys there: `multi_shard`.
    MultiShard,
    /// By a rule of its own: `special`.
    Special,
}

/// What is made of the replies of several nodes.
#[derive(Clone, Copy, PartialEq, Eq, Debug, Drop)]
pub enum ResponsePolicy {
    /// The first that is no error: `one_succeeded`.
    OneSucceeded,
    /// Any, where none is an error: `all_succeeded`.
    AllSucceeded,
    /// The logical and of numbers 0 and 1: `agg_logical_and`.
    AggLogicalAnd,
    /// The least number: `agg_min`.
    AggMin,
    /// The sum of the numbers: `agg_sum`.
    AggSum,
    /// By a rule of its own: `special`.
    Special,
}
