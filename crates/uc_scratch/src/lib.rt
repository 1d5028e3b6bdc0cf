//! The grammar of scratch texts: what a text of tokens, blocks and items says.
#![tactic(auto)]

mod atom_front;
mod block;
mod expr;
mod expr_levels;
mod file;
mod file_faults;
mod forms;
mod front;
mod heads;
mod item_levels;
mod items;
mod levels;
mod name_faults;
mod names;
mod nesting;
mod parts;
mod pattern;
mod pattern_levels;
mod pattern_names;
mod quantified;
mod read_declarations;
mod read_exprs;
mod read_files;
mod read_items;
mod read_patterns;
mod read_types;
mod reading;
mod rooms;
mod scope;
#[cfg(test)]
mod shown;
#[cfg(test)]
mod shown_items;
mod signed;
mod stop;
mod terminal;
mod type_expr;
mod type_free;
mod type_levels;
mod type_scope;
mod unique;
mod walk;
mod written;

pub use block::{Binding, BindingFront, Block, Case, Entry, Signature, Use};
pub use expr::{Atom, Expr, Step};
pub use file::{Constructor, Declaration, DeclarationSort, File, Item, Watch};
pub use names::WrittenNames;
pub use pattern::{Pattern, PatternAtom, PatternForm, PatternOperand};
pub use pattern_names::add_pattern as add_pattern_names;
pub use read_files::read_file;
pub use reading::reading_law;
pub use scope::Scope;
pub use terminal::Terminal;
pub use type_expr::{TypeAtom, TypeExpr, TypeFront, TypeOperand};
pub use type_free::put_in_front;
pub use type_scope::front_variables;
pub use unique::parts_law;
pub use written::{Con, Head, Literal, LiteralSort, Param, Reference, Written};
