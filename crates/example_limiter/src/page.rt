//! A page that is kept on a server.

use crate::commands;
use resp_core::{ConnectionLike, RedisResult};
use std::alloc::Global;
use std::collections::BTreeMap;
use std::io;
use std::io::Write;

/// What a server says of a page.
#[derive(Drop)]
pub struct Page {
    /// Its title.
    pub title: String,
    /// How often it was visited.
    pub visits: i64,
    /// Who wrote it: names of fields, and their values.
    pub author: BTreeMap<String, String>,
    /// The titles of two more pages, where they are there.
    pub others: Vec<Option<String>>,
}

/// Sets the title of the page, counts three visits, and reads the page.
pub fn visit(alloc: Global, con: &mut dyn ConnectionLike) -> RedisResult<Page> {
    commands::set(alloc, con, "title:1", "Notes")?;
    Ok(Page {
        title: commands::get(alloc, con, "title:1")?,
        visits: commands::incr(alloc, con, "visits:1", 3)?,
        author: commands::hgetall(alloc, con, "author:1")?,
        others: commands::mget(alloc, con, &["title:2", "title:3"])?,
    })
}

impl Page {
    /// Writes a line for each thing that is known of the page.
    pub fn print<W: Write>(&self, out: &mut W) -> io::Result<()> {
        writeln!(out, "{}: {} visits", self.title, self.visits)?;
        for (field, value) in &self.author {
            writeln!(out, "{field}: {value}")?;
        }
        for other in &self.others {
            writeln!(out, "another: {other:?}")?;
        }
        Ok(())
    }
}
