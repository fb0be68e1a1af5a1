//! The tree of a text in occam, as a draft: tables of nodes. What has a fault is told, and all else is read.
//!
//! No contract says that a draft is the text's: tpw_occam_reading writes its tree out, and compares.
#![tactic(auto)]

mod declarations;
mod draft;
mod expressions;
mod faults;
mod heads;
mod parts;
mod phrases;
mod processes;
mod rows;
mod stop;

pub use draft::{
    CaseNode, ChoiceNode, DeclarationId, DeclarationNode, Draft, ExpressionId, ExpressionNode,
    ParameterNode, ProcessId, ProcessNode, SizeNode, Stretch, TypeNode,
};
pub use parsing::{Drafted, draft_of};

mod parsing;
