//! The texts of the statements on the tables of an office.

/// Makes the table of the version.
pub const MAKE_OFFICE: &str = "CREATE TABLE office (version INTEGER NOT NULL) STRICT";

/// Makes the table of capabilities.
pub const MAKE_CAPS: &str =
    "CREATE TABLE caps (digest TEXT NOT NULL PRIMARY KEY, account TEXT NOT NULL, kind TEXT NOT \
     NULL, until INTEGER NOT NULL) STRICT";

/// Makes the table of registries.
pub const MAKE_REGISTRIES: &str =
    "CREATE TABLE registries (name TEXT NOT NULL PRIMARY KEY, max INTEGER NOT NULL) STRICT";

/// Makes the table of their ranges.
pub const MAKE_RANGES: &str =
    "CREATE TABLE ranges (registry TEXT NOT NULL, lo INTEGER NOT NULL, hi INTEGER NOT NULL, \
     treatment TEXT NOT NULL, note TEXT NOT NULL, PRIMARY KEY (registry, lo), FOREIGN KEY \
     (registry) REFERENCES registries (name)) STRICT";

/// Makes the table of entries.
pub const MAKE_ENTRIES: &str =
    "CREATE TABLE entries (registry TEXT NOT NULL, value INTEGER NOT NULL, label TEXT NOT NULL, \
     assignee TEXT NOT NULL, first INTEGER NOT NULL, expires INTEGER, renewed INTEGER NOT NULL, \
     PRIMARY KEY (registry, value), FOREIGN KEY (registry) REFERENCES registries (name)) STRICT";

/// Makes the table of requests.
pub const MAKE_REQUESTS: &str =
    "CREATE TABLE requests (account TEXT NOT NULL, reference TEXT NOT NULL, kind TEXT NOT NULL, \
     registry TEXT, value INTEGER, least TEXT, label TEXT, contact TEXT, specification TEXT, \
     rfc_number INTEGER, rfc_stream TEXT, rfc_track TEXT, minute TEXT, draft TEXT, stable \
     INTEGER, interest INTEGER, chair TEXT, director TEXT, will_be_rfc INTEGER, size TEXT, \
     organization TEXT, address TEXT, state TEXT NOT NULL, given TEXT, reason TEXT, PRIMARY KEY \
     (account, reference)) STRICT";

/// Makes the table of what is assigned to experts.
pub const MAKE_QUEUE: &str =
    "CREATE TABLE queue (account TEXT NOT NULL, reference TEXT NOT NULL, expert TEXT NOT NULL, \
     PRIMARY KEY (account, reference, expert), UNIQUE (expert, account, reference), FOREIGN KEY \
     (account, reference) REFERENCES requests (account, reference)) STRICT";

/// Makes the table of advice.
pub const MAKE_ADVICE: &str =
    "CREATE TABLE advice (account TEXT NOT NULL, reference TEXT NOT NULL, expert TEXT NOT NULL, \
     verdict TEXT NOT NULL, text TEXT NOT NULL, PRIMARY KEY (account, reference, expert), FOREIGN \
     KEY (account, reference, expert) REFERENCES queue (account, reference, expert)) STRICT";

/// Makes the table of the pool.
pub const MAKE_POOL: &str = "CREATE TABLE pool (prefix INT NOT NULL PRIMARY KEY) STRICT";

/// Makes the table of blocks.
pub const MAKE_BLOCKS: &str =
    "CREATE TABLE blocks (first INT NOT NULL PRIMARY KEY, size TEXT NOT NULL, holder TEXT NOT \
     NULL, organization TEXT NOT NULL, address TEXT NOT NULL, private INTEGER NOT NULL, UNIQUE \
     (holder, first)) STRICT";

/// Makes the table of the entries that are held.
pub const MAKE_HOLDS: &str =
    "CREATE TABLE holds (registry TEXT NOT NULL, value INTEGER NOT NULL, PRIMARY KEY (registry, \
     value), FOREIGN KEY (registry, value) REFERENCES entries (registry, value)) STRICT";

/// Makes the table of the minutes that renewals name.
pub const MAKE_MINUTES: &str =
    "CREATE TABLE minutes (account TEXT NOT NULL, reference TEXT NOT NULL, minute TEXT NOT NULL, \
     PRIMARY KEY (account, reference), FOREIGN KEY (account, reference) REFERENCES requests \
     (account, reference)) STRICT";

/// Makes the table of agents.
pub const MAKE_AGENTS: &str =
    "CREATE TABLE agents (principal TEXT NOT NULL, agent TEXT NOT NULL, PRIMARY KEY (principal, \
     agent), UNIQUE (agent, principal)) STRICT";

/// Makes the table of acts.
pub const MAKE_JOURNAL: &str =
    "CREATE TABLE journal (number INT NOT NULL PRIMARY KEY, day INTEGER, second INTEGER, actor \
     TEXT, token TEXT, kind TEXT NOT NULL, account TEXT, reference TEXT, other TEXT, verdict TEXT, \
     registry TEXT, value INTEGER, size TEXT, UNIQUE (account, reference, number)) STRICT";

/// The version of the schema.
pub const SELECT_VERSION: &str = "SELECT version FROM office";

/// The capability of a digest.
pub const SELECT_CAP: &str = "SELECT digest, account, kind, until FROM caps WHERE digest = ?1";

/// The registry of a name.
pub const SELECT_REGISTRY: &str = "SELECT name, max FROM registries WHERE name = ?1";

/// All registries, by name.
pub const SELECT_REGISTRIES: &str = "SELECT name, max FROM registries ORDER BY name";

/// The ranges of a registry, from the lowest on.
pub const SELECT_RANGES_OF: &str =
    "SELECT registry, lo, hi, treatment, note FROM ranges WHERE registry = ?1 ORDER BY lo";

/// All ranges, by registry, from the lowest on.
pub const SELECT_RANGES: &str =
    "SELECT registry, lo, hi, treatment, note FROM ranges ORDER BY registry, lo";

/// The entry of a value.
pub const SELECT_ENTRY: &str =
    "SELECT registry, value, label, assignee, first, expires, renewed FROM entries WHERE registry \
     = ?1 AND value = ?2";

/// The entries of a registry, by value.
pub const SELECT_ENTRIES_OF: &str =
    "SELECT registry, value, label, assignee, first, expires, renewed FROM entries WHERE registry \
     = ?1 ORDER BY value";

/// All entries, by registry and value.
pub const SELECT_ENTRIES: &str =
    "SELECT registry, value, label, assignee, first, expires, renewed FROM entries ORDER BY \
     registry, value";

/// The request of an account and a reference.
pub const SELECT_REQUEST: &str =
    "SELECT account, reference, kind, registry, value, least, label, contact, specification, \
     rfc_number, rfc_stream, rfc_track, minute, draft, stable, interest, chair, director, \
     will_be_rfc, size, organization, address, state, given, reason FROM requests WHERE account = \
     ?1 AND reference = ?2";

/// The requests of an account, by reference.
pub const SELECT_REQUESTS_OF: &str =
    "SELECT account, reference, kind, registry, value, least, label, contact, specification, \
     rfc_number, rfc_stream, rfc_track, minute, draft, stable, interest, chair, director, \
     will_be_rfc, size, organization, address, state, given, reason FROM requests WHERE account = \
     ?1 ORDER BY reference";

/// All requests, by account and reference.
pub const SELECT_REQUESTS: &str =
    "SELECT account, reference, kind, registry, value, least, label, contact, specification, \
     rfc_number, rfc_stream, rfc_track, minute, draft, stable, interest, chair, director, \
     will_be_rfc, size, organization, address, state, given, reason FROM requests ORDER BY \
     account, reference";

/// The requests that are in a state, by account and reference. The order begins with the state, which
/// is the same in all: no key begins so, and the table is read as it lies, and not row by row through
/// its key. The few rows that are found are sorted.
pub const SELECT_PENDING: &str =
    "SELECT account, reference, kind, registry, value, least, label, contact, specification, \
     rfc_number, rfc_stream, rfc_track, minute, draft, stable, interest, chair, director, \
     will_be_rfc, size, organization, address, state, given, reason FROM requests WHERE state = \
     ?1 ORDER BY state, account, reference";

/// The row that assigns a request to an expert.
pub const SELECT_QUEUE_ROW: &str =
    "SELECT account, reference, expert FROM queue WHERE account = ?1 AND reference = ?2 AND \
     expert = ?3";

/// The requests that are assigned to an expert, each with the advice that the expert gave.
pub const SELECT_QUEUED: &str =
    "SELECT r.account, r.reference, r.kind, r.registry, r.value, r.least, r.label, r.contact, \
     r.specification, r.rfc_number, r.rfc_stream, r.rfc_track, r.minute, r.draft, r.stable, \
     r.interest, r.chair, r.director, r.will_be_rfc, r.size, r.organization, r.address, r.state, \
     r.given, r.reason, a.verdict, a.text FROM queue q JOIN requests r ON r.account = q.account \
     AND r.reference = q.reference LEFT JOIN advice a ON a.account = q.account AND a.reference = \
     q.reference AND a.expert = q.expert WHERE q.expert = ?1 ORDER BY q.account, q.reference";

/// The experts to whom a request is assigned, each with the advice that the expert gave.
pub const SELECT_SEATS: &str =
    "SELECT queue.account, queue.reference, queue.expert, advice.verdict, advice.text FROM queue \
     LEFT JOIN advice ON advice.account = queue.account AND advice.reference = queue.reference \
     AND advice.expert = queue.expert WHERE queue.account = ?1 AND queue.reference = ?2 ORDER BY \
     queue.expert";

/// The advice of an expert on a request.
pub const SELECT_ADVICE_ROW: &str =
    "SELECT account, reference, expert, verdict, text FROM advice WHERE account = ?1 AND \
     reference = ?2 AND expert = ?3";

/// A prefix of the pool.
pub const SELECT_PREFIX: &str = "SELECT prefix FROM pool WHERE prefix = ?1";

/// All prefixes of the pool.
pub const SELECT_POOL: &str = "SELECT prefix FROM pool ORDER BY prefix";

/// The block that begins at an address.
pub const SELECT_BLOCK: &str =
    "SELECT first, size, holder, organization, address, private FROM blocks WHERE first = ?1";

/// The blocks of a holder, by their first addresses.
pub const SELECT_BLOCKS_OF: &str =
    "SELECT first, size, holder, organization, address, private FROM blocks WHERE holder = ?1 \
     ORDER BY first";

/// All blocks, by their first addresses.
pub const SELECT_BLOCKS: &str =
    "SELECT first, size, holder, organization, address, private FROM blocks ORDER BY first";

/// The row that says that the entry of a value is held.
pub const SELECT_HOLD: &str =
    "SELECT registry, value FROM holds WHERE registry = ?1 AND value = ?2";

/// The values of a registry whose entries are held, in their order.
pub const SELECT_HOLDS_OF: &str =
    "SELECT registry, value FROM holds WHERE registry = ?1 ORDER BY value";

/// The minute that a renewal names.
pub const SELECT_MINUTE: &str =
    "SELECT account, reference, minute FROM minutes WHERE account = ?1 AND reference = ?2";

/// The row that makes an account the agent of a principal.
pub const SELECT_AGENT: &str =
    "SELECT principal, agent FROM agents WHERE principal = ?1 AND agent = ?2";

/// The agents of a principal, by their names.
pub const SELECT_AGENTS_OF: &str =
    "SELECT principal, agent FROM agents WHERE principal = ?1 ORDER BY agent";

/// The principals of an agent, by their names.
pub const SELECT_PRINCIPALS_OF: &str =
    "SELECT principal, agent FROM agents WHERE agent = ?1 ORDER BY principal";

/// All acts, by their numbers.
pub const SELECT_JOURNAL: &str =
    "SELECT number, day, second, actor, token, kind, account, reference, other, verdict, registry, \
     value, size FROM journal ORDER BY number";

/// The acts of a day, by their numbers.
pub const SELECT_ACTS_ON: &str =
    "SELECT number, day, second, actor, token, kind, account, reference, other, verdict, registry, \
     value, size FROM journal WHERE day = ?1 ORDER BY number";

/// The acts that an account made, by their numbers.
pub const SELECT_ACTS_BY: &str =
    "SELECT number, day, second, actor, token, kind, account, reference, other, verdict, registry, \
     value, size FROM journal WHERE actor = ?1 ORDER BY number";

/// The acts about a request, by their numbers.
pub const SELECT_ACTS_ABOUT: &str =
    "SELECT number, day, second, actor, token, kind, account, reference, other, verdict, registry, \
     value, size FROM journal WHERE account = ?1 AND reference = ?2 ORDER BY number";

/// Adds the row that says the version.
pub const INSERT_VERSION: &str = "INSERT INTO office (version) VALUES (?1)";

/// Adds a capability.
pub const INSERT_CAPS: &str =
    "INSERT INTO caps (digest, account, kind, until) VALUES (?1, ?2, ?3, ?4)";

/// Adds a registry.
pub const INSERT_REGISTRIES: &str = "INSERT INTO registries (name, max) VALUES (?1, ?2)";

/// Adds a range.
pub const INSERT_RANGES: &str =
    "INSERT INTO ranges (registry, lo, hi, treatment, note) VALUES (?1, ?2, ?3, ?4, ?5)";

/// Adds a request.
pub const INSERT_REQUESTS: &str =
    "INSERT INTO requests (account, reference, kind, registry, value, least, label, contact, \
     specification, rfc_number, rfc_stream, rfc_track, minute, draft, stable, interest, chair, \
     director, will_be_rfc, size, organization, address, state, given, reason) VALUES (?1, ?2, \
     ?3, ?4, ?5, ?6, ?7, ?8, ?9, ?10, ?11, ?12, ?13, ?14, ?15, ?16, ?17, ?18, ?19, ?20, ?21, ?22, \
     ?23, ?24, ?25)";

/// Assigns a request to an expert.
pub const INSERT_QUEUE: &str = "INSERT INTO queue (account, reference, expert) VALUES (?1, ?2, ?3)";

/// Adds a prefix to the pool.
pub const INSERT_POOL: &str = "INSERT INTO pool (prefix) VALUES (?1)";

/// Adds a block.
pub const INSERT_BLOCKS: &str =
    "INSERT INTO blocks (first, size, holder, organization, address, private) VALUES (?1, ?2, ?3, \
     ?4, ?5, ?6)";

/// Says that the entry of a value is held.
pub const INSERT_HOLDS: &str = "INSERT INTO holds (registry, value) VALUES (?1, ?2)";

/// Adds the minute that a renewal names.
pub const INSERT_MINUTES: &str =
    "INSERT INTO minutes (account, reference, minute) VALUES (?1, ?2, ?3)";

/// Makes an account the agent of a principal.
pub const INSERT_AGENTS: &str = "INSERT INTO agents (principal, agent) VALUES (?1, ?2)";

/// Adds an act.
pub const INSERT_JOURNAL: &str =
    "INSERT INTO journal (number, day, second, actor, token, kind, account, reference, other, \
     verdict, registry, value, size) VALUES (?1, ?2, ?3, ?4, ?5, ?6, ?7, ?8, ?9, ?10, ?11, ?12, \
     ?13)";

/// Adds the advice of an expert on a request, or puts it in the place of what the expert gave.
pub const PUT_ADVICE: &str =
    "INSERT INTO advice (account, reference, expert, verdict, text) VALUES (?1, ?2, ?3, ?4, ?5) \
     ON CONFLICT (account, reference, expert) DO UPDATE SET verdict = excluded.verdict, text = \
     excluded.text";

/// Adds the entry of a value, or changes all of it but its key.
pub const PUT_ENTRY: &str =
    "INSERT INTO entries (registry, value, label, assignee, first, expires, renewed) VALUES (?1, \
     ?2, ?3, ?4, ?5, ?6, ?7) ON CONFLICT (registry, value) DO UPDATE SET label = excluded.label, \
     assignee = excluded.assignee, first = excluded.first, expires = excluded.expires, renewed = \
     excluded.renewed";

/// Takes the capability of a digest away.
pub const DELETE_CAP: &str = "DELETE FROM caps WHERE digest = ?1";

/// Says no longer that the entry of a value is held.
pub const DELETE_HOLD: &str = "DELETE FROM holds WHERE registry = ?1 AND value = ?2";

/// Makes an account the agent of a principal no longer.
pub const DELETE_AGENT: &str = "DELETE FROM agents WHERE principal = ?1 AND agent = ?2";

/// Changes the row that says the version.
pub const CHANGE_VERSION: &str = "UPDATE office SET version = ?1";

/// Changes the state of a request.
pub const CHANGE_REQUEST: &str =
    "UPDATE requests SET state = ?3, given = ?4, reason = ?5 WHERE account = ?1 AND reference = ?2";

/// Changes whether a block is private.
pub const CHANGE_BLOCK: &str = "UPDATE blocks SET private = ?2 WHERE first = ?1";
