// What the words of the command line ask for.
ghost use Rattle.std.specs.Prelude.{◌≡◌};
ghost use Rattle.hx_words.specs.Words.{is_reading};

use hx_model::RunConfig;
use hx_object::Text;

/// What the words ask for.
#[derive(Drop)]
pub struct Command {
    pub task: Task,
    /// The path of the database. The empty path asks for rows in memory.
    pub db: Text,
    /// What is fixed for the cluster. Only `run` and `serve` can allow to skip rules, and `quota` and `gen` exclude no namespace.
    pub config: RunConfig,
    /// Whether each event is to be printed as it happens. Only `run` and `serve` can ask for it.
    pub events: bool,
}

impl Command {
    /// Whether the command only reads what is stored.
    pub fn is_reading(&self) -> bool
        ensures { result ≡ is_reading self.now.task }
    {
        match &self.task {
            Task::Run => false,
            Task::Serve(_serving) => false,
            Task::Print(_report) => true,
            Task::Generate(_workload) => false,
        }
    }
}

/// What is to be done.
pub enum Task {
    /// To answer the lines of a script.
    Run,
    /// To answer messages of HTTP.
    Serve(Serving),
    /// To print a report on what is stored.
    Print(Report),
    /// To make a cluster, settle it and print its counts.
    Generate(Workload),
}

impl Drop for Task {
    fn drop(self) {
        match self {
            Task::Run => {}
            Task::Serve(_) => {}
            Task::Print(_) => {}
            Task::Generate(_) => {}
        }
    }
}

/// How messages of HTTP are answered.
#[derive(Drop)]
pub struct Serving {
    /// Where to listen: an address and a port. What is none isn't told from the others here.
    pub listen: Text,
    /// How many links are answered at a time, 1 to 16.
    pub sessions: u32,
    /// How many workers settle beside them, 0 to 16.
    pub workers: u32,
    /// After how many links to end, 1 to 1,000,000.
    pub links: u64,
}

/// Which cluster is made.
#[derive(Clone, Copy)]
pub struct Workload {
    /// What the parents of its namespaces are drawn from, 0 to 2,147,483,647.
    pub number: u32,
    /// How many namespaces it has, 1 to 2,048.
    pub count: u32,
}

/// What is printed of the stored rows.
pub enum Report {
    /// The namespaces as trees.
    Tree,
    /// What a namespace has of its ancestors.
    Describe(Text),
    /// What quotas limit, and what is used of it.
    Quota,
    /// Whether the rows are settled.
    Audit,
}

impl Drop for Report {
    fn drop(self) {
        match self {
            Report::Tree => {}
            Report::Describe(_) => {}
            Report::Quota => {}
            Report::Audit => {}
        }
    }
}
