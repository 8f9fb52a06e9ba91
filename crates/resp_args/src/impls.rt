//! The types of the standard library as arguments.

mod booleans;
mod hashed_maps;
mod hashed_sets;
mod integers;
mod pairs;
mod parts;
mod references;
mod slices;
mod sorted_maps;
mod sorted_sets;
mod texts;
mod tuples;
