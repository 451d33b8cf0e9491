//! What a request asks for: the step from a head and the tables of a folder to a request that owns all it says, or to the code under which it is
//! refused (OData 4.01 Part 2, URL Conventions, sections 4 and 5). The first fault is reported: with the head, the target, the path, an
//! option where it stands, and last the value of an option.
#![tactic(auto)]

mod fault;
mod laws;
mod options;
mod query;
mod reading;
mod request;
mod resource;

pub use laws::{keys_stand_alone, one_request, paths_lead};
pub use request::{Request, RowsRequest, request_of};
pub use resource::{Resource, resource_of};
