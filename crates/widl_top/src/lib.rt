//! The top call of the program `widl`: it answers the arguments of a command line over a folder of files, and writes to a
//! sink. It stands on the verdict of `widl_front`, on what is written for an accepted set (`widl_sets`,
//! `widl_engine`), and on folders and sinks (`widl_folder`, `widl_sink`). The main contract is that of
//! [`widl`], which the program (`widl_cli`) calls with the disk and standard output: what is written is the defined
//! output of the arguments and the files, and each failure is tied to its cause.
#![tactic(auto)]

mod answer;
mod fetching;
mod help;
pub mod laws;
mod reader;
mod request;
mod running;
mod script_line;
mod status;
mod sure;
mod task;
mod top;
mod unread;
mod words;

pub use status::Status;
pub use sure::widl_surely;
pub use top::widl;
pub use widl_folder::{
    DiskFolder, Files, Folder, MemoryFolder, NamedFile, ReadFailed, Started, SureFolder,
};
pub use words::Words;
