//! Folders of files that are read from their start to their end, in memory and on the disk. It stands
//! on `widl_sink` for what a count of faults means. The one contract that the crates above use: what
//! [`fetch`] answers for a file, by the told files where the folder tells them, and by its counts.
#![tactic(auto)]

mod disk_folder;
mod files;
mod folder;
mod memory_folder;
mod reading;
mod sure_folder;
mod whole_file;

pub use disk_folder::DiskFolder;
pub use files::{Files, NamedFile};
pub use folder::{Folder, ReadFailed, Started};
pub use memory_folder::MemoryFolder;
pub use sure_folder::SureFolder;
pub use whole_file::{FetchError, fetch};
