// The door: the functions that a caller asks, and the records that they take and answer. Who names this crate names no other.
#![tactic(auto)]

// Labels (document 01, "Labels"): `empty`, `well_formed`, `contains`, `within` and `in_range` are functions of a label.
pub use label::{Label, Run};

// Renumbering: a label carried to the far domain, the reverse of a table, and two labels as one.
pub use renumber::{RenumberError, renumber};
pub use renumber_join::{JoinError, join};
pub use renumber_reverse::{ReverseError, reverse, reverse_levels};

// Option 134 (document 01, "Option and tags"): one option read, and the shortest of a label written.
pub use option::Spellings;
pub use option_read::{Fault, read_option};
pub use option_spell::{SpellError, spell_label};

// Option 130 (document 02, Wish 3): one option read, and one written.
pub use basic::{BasicError, BasicReading, read_basic, write_basic};

// Records (document 01, "Records"; document 02, Wish 8): ports, hosts and tables with the rows that are lent for them, and whether they are sound.
pub use basic::{Basic, Way};
pub use port::{Host, Port, host_sound, port_sound};
pub use table::{Renumbering, Row, Table, row_at, rows_sound, table_sound};
pub use table_levels::{LevelPair, Levels};

// The decision (document 01, "The order of checks"): a datagram delivered to a host, and forwarded from port to port.
pub use decision::{Decision, Facts};
pub use deliver::deliver;
pub use forward::forward;

// Many ports (document 02, Wish 7): a datagram routed and decided.
pub use route::Route;
pub use route_decide::decide;
pub use table_choose::{Tables, tables_sound};

// The house file (document 02, Wishes 1 and 8): read and written.
pub use file_read::{ACCEPTED, FileRead, OUTGROWN, REFUSED, UNKNOWN, read_file};
pub use file_set::{Set, empty_set, set_sound};
pub use file_write::{WriteError, write_file};

// ICMP messages (document 02, Wish 9): one built about a refusal, and one read.
pub use message::{Parts, read_message};
pub use message_build::{BuildError, Built, Report, build_message};

// The memory of destinations that want labels (document 02, Wish 13).
pub use memory::{Memory, Recall};
pub use memory_message::note_message;

// Recorded traffic (document 02, Wish 14): the lines of all whole records that are held.
pub use inspect_line::inspect_held;
pub use text::Line;
