//! Which paths outputs report, told in a time that does not rise with the number of reports.

ghost use Rattle.std.specs.Prelude.{◌≡◌, ◌||◌, ℕ, List, IfOk, OnOk, false, is_some, bytes_eq};
ghost use Rattle.indexmap.specs.IndexMap.{get_by_text};
ghost use Rattle.zk_nodes.specs.Path.{Text};
ghost use Rattle.zk_client.specs.Views.{output_view, said};
ghost use Rattle.zk_follow.specs.Following.{is_report_of, is_reported};
ghost use Rattle.zk_follow.specs.inner.Reported.{has_report_of, AreReported};

use indexmap::IndexMap;
use std::alloc::{AllocError, Allocator};
use std::hash::{BuildHasherDefault, FoldHasher};
use zk_client::{Output, Path};

/// Paths, each once.
type Paths<A> = IndexMap<String<A>, (), BuildHasherDefault<FoldHasher>, A>;

/// Of how many outputs each is looked at for a path. With more of them the paths that they report are kept.
const FEW: usize = 4;

/// The paths that outputs report. Where these are few, none is kept.
#[derive(Drop)]
pub(crate) struct Reported<A: Allocator + Copy> {
    is_few: bool,
    paths: Paths<A>,
}

/// Whether an output reports this path.
fn is_report_of<A: Allocator>(output: &Output<A>, path: &str) -> bool
    ensures { result ≡ is_report_of path.now (output_view output.now) }
{
    match output {
        Output::Report { path: at, .. } => at.as_str() == path,
        _ => false,
    }
}

/// Whether one of these outputs does.
fn is_reported<A: Allocator>(outputs: &[Output<A>], path: &str) -> bool
    ensures { result ≡ is_reported path.now (said outputs.now) }
{
    outputs.iter().any(|output| is_report_of(output, path))
}

/// Adds a path. An error means that memory ran out.
fn add_path<A: Allocator + Copy>(
    alloc: A,
    paths: &mut Paths<A>,
    path: &str,
) -> Result<(), AllocError>
    ensures { OnOk result ((other : List ℕ) → is_some (get_by_text paths.new other)
        ≡ (bytes_eq path.now other || is_some (get_by_text paths.old other))) }
{
    paths.insert(String::from_str(alloc, path)?, ())?;
    Ok(())
}

impl<A: Allocator + Copy> Reported<A> {
    /// No path.
    pub(crate) fn new(alloc: A) -> Reported<A>
        ensures { (path : Text) → has_report_of result path ≡ false }
    {
        Reported {
            is_few: false,
            paths: IndexMap::new(alloc),
        }
    }

    /// Adds the path that an output reports, if it does. An error means that memory ran out.
    fn note(&mut self, alloc: A, output: &Output<A>) -> Result<(), AllocError>
        ensures { OnOk result ((path : Text) → has_report_of self.new path
            ≡ (is_report_of path (output_view output.now) || has_report_of self.old path)) }
    {
        match output {
            Output::Report { path, .. } => add_path(alloc, &mut self.paths, path.as_str()),
            _ => Ok(()),
        }
    }

    /// The paths that these outputs report. An error means that memory ran out.
    pub(crate) fn of(alloc: A, outputs: &[Output<A>]) -> Result<Reported<A>, AllocError>
        ensures { IfOk result (λ reported. reported.is_few ≡ false → AreReported reported (said outputs.now)) }
    {
        let mut reported = Reported::new(alloc);
        if outputs.len() <= FEW {
            reported.is_few = true;
            return Ok(reported);
        }
        for output in outputs {
            reported.note(alloc, output)?;
        }
        Ok(reported)
    }

    /// Whether this path is kept.
    fn has(&self, path: &Path<A>) -> bool
        ensures { result ≡ has_report_of self.now path.now }
    {
        self.paths.get(path.as_str()).is_some()
    }

    /// Whether an output reports this path, of those of which these are the paths.
    pub(crate) fn is_there(&self, path: &Path<A>, outputs: &[Output<A>]) -> bool
        requires { self.now.is_few ≡ false → AreReported self.now (said outputs.now) }
        ensures { result ≡ is_reported path.now (said outputs.now) }
    {
        if self.is_few {
            return is_reported(outputs, path.as_str());
        }
        self.has(path)
    }
}
