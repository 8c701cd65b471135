//! The lines of a script, expanded one by one.

ghost use Rattle.std.specs.Prelude.{◌≡◌, ◌++◌, None, OnOk, Some};
ghost use Rattle.geo_tool.specs.Expansion.{after_line, bench_after_line, closed, empty_bench, given_by, given_in};

use crate::expanded::Expanded;
use crate::tools::{Tool, is_end, open_tool, telling_words};
use crate::uses::{put_use, read_use};
use geo_sketch::NoMemory;
use std::alloc::{AllocError, Global};
use std::marker::Model;

/// The greatest number of lines of a tool's body.
const BODY_LIMIT: usize = 32;

/// The tools that a script has defined so far, and the one whose body is open.
#[derive(Drop)]
pub struct Expander {
    tools: Vec<Tool>,
    begun: Option<Tool>,
    alloc: Global,
}

impl Model for Expander {
    ghost use Rattle.geo_tool.specs.Expansion.{Bench};

    ghost Value = { Bench };

    ghost view = { λ e. record { tools = e.tools.items; begun = e.begun } };
}

impl Expander {
    /// No tool, and no open body.
    pub fn new(alloc: Global) -> Expander
        ensures { result ≡ empty_bench }
    {
        Expander {
            tools: Vec::new(alloc),
            begun: None,
            alloc,
        }
    }

    /// Takes the next line of the script, and appends the lines that it gives.
    ///
    /// Once it has wanted memory, the expander can only be dropped.
    pub fn feed(&mut self, line: &[u8], out: &mut Expanded) -> Result<(), NoMemory>
        ensures given { OnOk result (out.new ≡ out.old ++ given_by self.old line.now) }
        ensures after { OnOk result (self.new ≡ after_line self.old line.now) }
    {
        let fed = match self.begun.take() {
            Some(tool) => self.put_in_body(tool, line),
            None => self.carry_out(line, out),
        };
        match fed {
            Ok(()) => Ok(()),
            Err(AllocError) => Err(NoMemory),
        }
    }

    /// Takes a line that stands in the body of a tool.
    fn put_in_body(&mut self, tool: Tool, line: &[u8]) -> Result<(), AllocError>
        requires { self.old.begun ≡ None }
        ensures { OnOk result (self.new ≡ bench_after_line self.old.tools (Some tool) line.now) }
    {
        if is_end(telling_words(line)) {
            return self.close(tool);
        }
        let mut longer = tool;
        longer.push(line.to_vec(self.alloc)?)?;
        if longer.line_count() >= BODY_LIMIT {
            return self.close(longer);
        }
        self.begun = Some(longer);
        Ok(())
    }

    /// The body of this tool is closed.
    fn close(&mut self, tool: Tool) -> Result<(), AllocError>
        requires { self.old.begun ≡ None }
        ensures { OnOk result (self.new ≡ closed self.old.tools tool) }
    {
        self.tools.push(tool)?;
        Ok(())
    }

    /// Takes a line that stands in no body.
    fn carry_out(&mut self, line: &[u8], out: &mut Expanded) -> Result<(), AllocError>
        requires { self.old.begun ≡ None }
        ensures given { OnOk result (out.new ≡ out.old ++ given_in self.old.tools None line.now) }
        ensures after { OnOk result (self.new ≡ bench_after_line self.old.tools None line.now) }
    {
        let words = telling_words(line);
        if let Some(tool) = open_tool(self.alloc, &self.tools, words) {
            self.begun = Some(tool);
        } else if let Some(asked) = read_use(&self.tools, words) {
            put_use(self.alloc, &asked, out)?;
        } else {
            out.push(line.to_vec(self.alloc)?)?;
        }
        Ok(())
    }
}
