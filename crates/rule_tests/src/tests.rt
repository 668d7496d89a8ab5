//! Tests of the shared words of a line of two boxes.

mod bells;
mod desk;
mod instruments;
mod joined;
mod posts;
mod sections;
mod threads;
