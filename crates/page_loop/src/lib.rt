//! The loop of a connection on which operators ask for pages: requests over HTTP/1.1 are answered, in order, over any reader and
//! writer.
#![tactic(auto)]

mod answer;
mod ending;
mod pages;
mod requests;

pub use ending::PagesEnding;
pub use pages::Pages;
pub use requests::serve_pages;
