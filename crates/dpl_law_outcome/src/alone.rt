//! A layer of a batch is decomposed as by itself.
ghost use Rattle.dpl_law_outcome.specs.Alone.{AgreeingBatchesAreOne, AgreeingFilesAreOne, EachFileIsAlone, EachLayerIsAlone};

/// For every layer of `batch` its files and its line are those that `split` alone gives, whatever the other layers hold.
/// So two files that `split` refuses for a layer with the same fault, or that have the same squares on it and the same records to copy, give that layer the same bytes.
pub fn each_layer_is_alone()
    ensures alone { EachLayerIsAlone }
    ensures left { EachFileIsAlone }
    ensures files { AgreeingFilesAreOne }
    ensures batches { AgreeingBatchesAreOne }
{}
