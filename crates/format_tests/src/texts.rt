//! Texts: what is printed of locks and hosts, also into writers that fail, and what is read of the command line and of the file of
//! peers, and of pages and the requests for them.
mod command_line;
mod known;
mod lines;
mod pages;
mod peer_files;
mod printed;
mod rows;
