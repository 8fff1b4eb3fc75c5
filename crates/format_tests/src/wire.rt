//! What goes over the wire: the items of XDR, the messages of RPC, record marks, and the values of the lock manager's and the
//! status monitor's protocol.
mod nlm;
mod nsm;
mod port_mapping;
mod reports;
mod rpc;
mod streams;
mod xdr;
