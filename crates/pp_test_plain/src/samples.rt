//! Sample settings and plans, those of examples/set1.toml and of the plans beside it among them, and journals of two plans.

/// The sample settings: three frames, two workers, four flushes, and [`REGIONS`].
pub const SETTINGS: &str = "frames = 3
page_bytes = 64
workers = 2
flushes = 4

[[region]]
name = \"root\"
first = 0
count = 4
class = 1

[[region]]
name = \"leaf\"
first = 16
count = 8
class = 2
";

/// The regions of the sample settings, for settings of other figures: `root` of the pages 0 to 3 and class 1, and `leaf` of the
/// pages 16 to 23 and class 2.
pub const REGIONS: &str = "
[[region]]
name = \"root\"
first = 0
count = 4
class = 1

[[region]]
name = \"leaf\"
first = 16
count = 8
class = 2
";

/// Writes a leaf.
pub const WRITE: &str =
    "{\"body\":[{\"fix\":\"a\",\"region\":\"leaf\"},{\"latch\":\"a\",\"mode\":\"X\"},\
{\"unlatch\":\"a\"},{\"unfix\":\"a\"}],\"version\":1}";

/// Reads a leaf.
pub const READ: &str =
    "{\"body\":[{\"fix\":\"a\",\"region\":\"leaf\"},{\"latch\":\"a\",\"mode\":\"S\"},\
{\"unlatch\":\"a\"},{\"unfix\":\"a\"}],\"version\":1}";

/// Fixes a root and gives it back.
pub const TOUCH: &str =
    "{\"body\":[{\"fix\":\"a\",\"region\":\"root\"},{\"unfix\":\"a\"}],\"version\":1}";

/// Does nothing.
pub const NOTHING: &str = "{\"body\":[],\"version\":1}";

/// From a root to a leaf, which is written.
pub const DESCENT: &str =
    "{\"body\":[{\"fix\":\"a\",\"region\":\"root\"},{\"latch\":\"a\",\"mode\":\"S\"},\
{\"fix\":\"b\",\"region\":\"leaf\"},{\"latch\":\"b\",\"mode\":\"X\"},{\"unlatch\":\"b\"},{\"unlatch\":\"a\"},\
{\"unfix\":\"b\"},{\"unfix\":\"a\"}],\"version\":1}";

/// Regions of eight pages for walks that look like chance, with a gap between them, and before the first.
pub const GAPS: &str = "
[[region]]
name = \"root\"
first = 1
count = 3
class = 1

[[region]]
name = \"leaf\"
first = 5
count = 5
class = 2
";

/// Three leaves, each written, read twice, or let be.
pub const SCAN: &str = "{\"body\":[{\"body\":[{\"fix\":\"a\",\"region\":\"leaf\"},{\"choice\":[\
[{\"latch\":\"a\",\"mode\":\"X\"},{\"unlatch\":\"a\"}],\
[{\"body\":[{\"latch\":\"a\",\"mode\":\"S\"},{\"unlatch\":\"a\"}],\"loop\":2}],[]]},\
{\"unfix\":\"a\"}],\"loop\":3}],\"version\":1}";

/// The journal of a worker that does [`WRITE`] with page 16, which isn't cached.
pub const WRITTEN: &str = "submit 0 = queued
take 0 = taken 0
fix 0 16 = mustread 0
came 0 16 0 = loaded 0
latch 0 = latched 0
unlatch 0 = unlatched 1
unfix 0 = did
finish 0 = done
";

/// The journal of a worker that does [`TOUCH`] with page 1, which isn't cached.
pub const TOUCHED: &str = "submit 0 = queued
take 0 = taken 0
fix 0 1 = mustread 0
came 0 1 0 = loaded 0
unfix 0 = did
finish 0 = done
";
