//! Worked rows over the flat table and real owners, random scripts beside a plain list of settings, and one through both tables.
mod beside;
mod plain;
mod rows;
mod scripts;
mod table;
