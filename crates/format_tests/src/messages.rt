//! What messages say: what records and answers are read as, what calls come to and the replies that tell it, the server's own
//! calls and their records, and the lines of local programs.
mod callback;
mod lines;
mod memory;
mod outcomes;
mod readings;
mod sent_calls;
