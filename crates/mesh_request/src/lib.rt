//! Requests for polygon offsetting: what is drawn of which paths, how, and what is listed of it; read from JSON, or
//! what is wrong with a value of JSON that is none (`fault`).
#![tactic(auto)]

pub mod error;
pub mod failure;
pub mod fault;
pub mod json;
pub mod options;
pub mod request;
