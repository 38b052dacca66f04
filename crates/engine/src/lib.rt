// The calls of the box (document 01, "The calls"), proved to do what `model` defines. `engine_c` has them for C.

#![tactic(auto)]

pub use auditor::audit::audit;
pub use calendar::backups::backups;
pub use collector::collect::collect;
pub use convert::{convert_1_2, convert_2_1, convert_2_3};
pub use counter::count::{Counted, count};
pub use fields::sizes::Sizes;
pub use figures::header::{Usage, sizes, used};
pub use figures::volume::{VolumeFigures, volume};
pub use form::check;
pub use intake::backup::{Backed, backup};
pub use recover::restore;
pub use restorer::read::{block, offset, read, read_number};
pub use retirer::retire::retire;
pub use rows::blocks::blocks;
pub use rows::cells::cells;
pub use setup::enrol::enrol;
pub use setup::format::format;
