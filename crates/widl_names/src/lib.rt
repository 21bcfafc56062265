//! What the names, types and values of a set of files mean, what is written in it, and the parts of its
//! definitions: the tables that the rules of merging and of validity read. It stands on the trees and
//! their plain terms in `widl_idl`. The contracts that the crates above use most: [`Meanings`] tells
//! which definition a name means, [`Resolver`] gives a written type without its typedefs,
//! [`list_nodes`] lists everything that is written, and [`Parts`] the parts of a definition in merged
//! order.
#![tactic(auto)]

mod annotations;
mod definitions;
mod extent;
mod kind_numbers;
mod listings;
mod meanings;
mod meant;
mod most_types;
mod names;
mod nodes;
mod operation_names;
mod parents;
mod part_members;
mod parts;
mod resolver;
mod scope;
mod typedef_ends;
mod typedef_links;
mod typedef_sizes;
mod written_values;

pub use annotations::Annotations;
pub use definitions::list_definitions;
pub use listings::list_nodes;
pub use meanings::{Meanings, kind_at};
pub use meant::{means_itself, means_kind, means_number, number_meant};
pub use most_types::MOST_TYPES;
pub use names::{is_partial, kind_of, main_name, name_declared, partial_name};
pub use nodes::Node;
pub use operation_names::{OperationNames, add_text, is_static};
pub use parents::{parent_graph, parent_of};
pub use part_members::list_members;
pub use parts::{Parts, group_at, members_in, no_groups, put_in_group};
pub use resolver::Resolver;
pub use scope::Scope;
pub use written_values::{default_meant, value_meant};
