// What is drawn, once the words, the scene and its libraries are read.
ghost use Rattle.std.specs.Prelude.{◌≡◌};
ghost use Rattle.abuf_picture.specs.Resolving.{composited, Agrees};
ghost use Rattle.abuf_cli.specs.Sound.{IsWhat, IsStorage, drawing_name};
ghost use Rattle.abuf_cli.specs.declared.job.Command.TheVariants as command;
ghost use Rattle.abuf_top.specs.Image.{region_of};
ghost use Rattle.abuf_top.specs.Listed.{subject_of};

use abuf_cli::{Job, What};
use abuf_picture::{Primitives, Target, compositing_law};
use abuf_raster::Region;
use abuf_view::Projected;
use std::marker::Model;

/// A job of one drawing, what is made of it, and the primitives of its scene.
#[derive(Drop)]
pub(crate) struct Drawing {
    job: Job,
    what: What,
    projected: Projected,
}

impl Model for Drawing {
    ghost use Rattle.std.specs.Prelude.{◌≡◌};
    ghost use Rattle.abuf_cli.specs.Sound.{IsJob};
    ghost use Rattle.abuf_cli.specs.declared.job.Command.TheVariants as command;
    ghost use Rattle.abuf_top.specs.Image.{Drawing};

    ghost Value = { Drawing };

    ghost view = { λ d. record { job = d.job; what = d.what; triangles = d.projected.tris; paints = d.projected.paints } };

    ghost invariant = { λ d. (d.job.command ≡ command.Draw d.what) × IsJob d.job };
}

impl Drawing {
    /// The drawing of a job's scene.
    pub(crate) fn new(job: Job, what: What, projected: Projected) -> Drawing
        requires { job.command ≡ command.Draw what }
        ensures { result ≡ record { job = job; what = what; triangles = projected.tris; paints = projected.paints } }
    {
        Drawing {
            job,
            what,
            projected,
        }
    }

    pub(crate) fn job(&self) -> &Job
        ensures { result.now ≡ self.now.job }
    {
        &self.job
    }

    pub(crate) fn what(&self) -> What
        ensures value { result ≡ self.now.what }
        ensures within { IsWhat self.now.job.camera.width self.now.job.camera.height result }
        ensures storage { IsStorage self.now.job.camera.height (drawing_name result) self.now.job.storage }
    {
        self.what
    }

    pub(crate) fn projected(&self) -> &Projected
        ensures triangles { result.now.tris ≡ self.now.triangles }
        ensures paints { result.now.paints ≡ self.now.paints }
    {
        &self.projected
    }

    /// All pixels of the image.
    pub(crate) fn region(&self) -> Region
        ensures { result ≡ region_of self.now.job }
    {
        let job = self.job();
        Region::whole_image(job.camera().width(), job.camera().height())
    }

    /// The primitives.
    pub(crate) fn primitives(&self) -> Primitives
        ensures triangles { result.triangles.now ≡ self.now.triangles }
        ensures paints { result.paints.now ≡ self.now.paints }
    {
        Primitives::of(self.projected())
    }

    /// What they are drawn into.
    pub(crate) fn target(&self) -> Target
        ensures region { result.region ≡ region_of self.now.job }
        ensures pattern { result.pattern ≡ self.now.job.pattern }
        ensures background { result.background ≡ self.now.job.background }
        ensures nodes { result.nodes ≡ self.now.job.nodes }
    {
        let job = self.job();
        let background = job.background();
        Target {
            region: self.region(),
            pattern: job.pattern(),
            background,
            nodes: job.nodes(),
            threads: job.threads(),
        }
    }

    /// Where lists hold all fragments of the drawing, compositing gives what the definition says.
    pub(crate) fn compositing_law(&self)
        ensures { Agrees composited (subject_of self.now) }
    {
        compositing_law(&self.primitives(), &self.target());
    }
}
