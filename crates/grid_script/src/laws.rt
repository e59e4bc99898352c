//! Laws of scripts.

ghost use Rattle.grid_script.specs.Laws.{PipelinesByText};

/// A line's text stands for a pipeline exactly where it is that pipeline's one text.
pub fn pipelines_stand_by_their_texts()
    ensures { PipelinesByText }
{}
