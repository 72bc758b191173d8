//! The storage SOP classes of DICOM, as PS3.6 (table A-1) has them: those that aren't retired,
//! without those of other standards (DICOS, DICONDE); each by its keyword, its name and its UID, in
//! the order of the numbers of the UIDs. `tests/classes.py` compares them with a second copy.
ghost use Rattle.std.specs.Prelude.{◌≡◌, map};
ghost use Rattle.dr_plan_expand.specs.Words.{entry};
ghost use Rattle.dr_plan_expand.specs.Standard.{classes_1, classes_2, classes_3};
ghost use Rattle.dr_plan_expand.specs.Standard.{classes_4, classes_5};

use crate::known::KnownUid;

/// The storage classes, part 1 of 5.
static CLASSES_1: [KnownUid; 33] = [
    (
        "ComputedRadiographyImageStorage",
        "Computed Radiography Image Storage",
        "1.2.840.10008.5.1.4.1.1.1",
    ),
    (
        "DigitalXRayImageStorageForPresentation",
        "Digital X-Ray Image Storage - For Presentation",
        "1.2.840.10008.5.1.4.1.1.1.1",
    ),
    (
        "DigitalXRayImageStorageForProcessing",
        "Digital X-Ray Image Storage - For Processing",
        "1.2.840.10008.5.1.4.1.1.1.1.1",
    ),
    (
        "DigitalMammographyXRayImageStorageForPresentation",
        "Digital Mammography X-Ray Image Storage - For Presentation",
        "1.2.840.10008.5.1.4.1.1.1.2",
    ),
    (
        "DigitalMammographyXRayImageStorageForProcessing",
        "Digital Mammography X-Ray Image Storage - For Processing",
        "1.2.840.10008.5.1.4.1.1.1.2.1",
    ),
    (
        "DigitalIntraOralXRayImageStorageForPresentation",
        "Digital Intra-Oral X-Ray Image Storage - For Presentation",
        "1.2.840.10008.5.1.4.1.1.1.3",
    ),
    (
        "DigitalIntraOralXRayImageStorageForProcessing",
        "Digital Intra-Oral X-Ray Image Storage - For Processing",
        "1.2.840.10008.5.1.4.1.1.1.3.1",
    ),
    (
        "CTImageStorage",
        "CT Image Storage",
        "1.2.840.10008.5.1.4.1.1.2",
    ),
    (
        "EnhancedCTImageStorage",
        "Enhanced CT Image Storage",
        "1.2.840.10008.5.1.4.1.1.2.1",
    ),
    (
        "LegacyConvertedEnhancedCTImageStorage",
        "Legacy Converted Enhanced CT Image Storage",
        "1.2.840.10008.5.1.4.1.1.2.2",
    ),
    (
        "UltrasoundMultiFrameImageStorage",
        "Ultrasound Multi-frame Image Storage",
        "1.2.840.10008.5.1.4.1.1.3.1",
    ),
    (
        "MRImageStorage",
        "MR Image Storage",
        "1.2.840.10008.5.1.4.1.1.4",
    ),
    (
        "EnhancedMRImageStorage",
        "Enhanced MR Image Storage",
        "1.2.840.10008.5.1.4.1.1.4.1",
    ),
    (
        "MRSpectroscopyStorage",
        "MR Spectroscopy Storage",
        "1.2.840.10008.5.1.4.1.1.4.2",
    ),
    (
        "EnhancedMRColorImageStorage",
        "Enhanced MR Color Image Storage",
        "1.2.840.10008.5.1.4.1.1.4.3",
    ),
    (
        "LegacyConvertedEnhancedMRImageStorage",
        "Legacy Converted Enhanced MR Image Storage",
        "1.2.840.10008.5.1.4.1.1.4.4",
    ),
    (
        "UltrasoundImageStorage",
        "Ultrasound Image Storage",
        "1.2.840.10008.5.1.4.1.1.6.1",
    ),
    (
        "EnhancedUSVolumeStorage",
        "Enhanced US Volume Storage",
        "1.2.840.10008.5.1.4.1.1.6.2",
    ),
    (
        "SecondaryCaptureImageStorage",
        "Secondary Capture Image Storage",
        "1.2.840.10008.5.1.4.1.1.7",
    ),
    (
        "MultiFrameSingleBitSecondaryCaptureImageStorage",
        "Multi-frame Single Bit Secondary Capture Image Storage",
        "1.2.840.10008.5.1.4.1.1.7.1",
    ),
    (
        "MultiFrameGrayscaleByteSecondaryCaptureImageStorage",
        "Multi-frame Grayscale Byte Secondary Capture Image Storage",
        "1.2.840.10008.5.1.4.1.1.7.2",
    ),
    (
        "MultiFrameGrayscaleWordSecondaryCaptureImageStorage",
        "Multi-frame Grayscale Word Secondary Capture Image Storage",
        "1.2.840.10008.5.1.4.1.1.7.3",
    ),
    (
        "MultiFrameTrueColorSecondaryCaptureImageStorage",
        "Multi-frame True Color Secondary Capture Image Storage",
        "1.2.840.10008.5.1.4.1.1.7.4",
    ),
    (
        "TwelveLeadECGWaveformStorage",
        "12-lead ECG Waveform Storage",
        "1.2.840.10008.5.1.4.1.1.9.1.1",
    ),
    (
        "GeneralECGWaveformStorage",
        "General ECG Waveform Storage",
        "1.2.840.10008.5.1.4.1.1.9.1.2",
    ),
    (
        "AmbulatoryECGWaveformStorage",
        "Ambulatory ECG Waveform Storage",
        "1.2.840.10008.5.1.4.1.1.9.1.3",
    ),
    (
        "HemodynamicWaveformStorage",
        "Hemodynamic Waveform Storage",
        "1.2.840.10008.5.1.4.1.1.9.2.1",
    ),
    (
        "CardiacElectrophysiologyWaveformStorage",
        "Cardiac Electrophysiology Waveform Storage",
        "1.2.840.10008.5.1.4.1.1.9.3.1",
    ),
    (
        "BasicVoiceAudioWaveformStorage",
        "Basic Voice Audio Waveform Storage",
        "1.2.840.10008.5.1.4.1.1.9.4.1",
    ),
    (
        "GeneralAudioWaveformStorage",
        "General Audio Waveform Storage",
        "1.2.840.10008.5.1.4.1.1.9.4.2",
    ),
    (
        "ArterialPulseWaveformStorage",
        "Arterial Pulse Waveform Storage",
        "1.2.840.10008.5.1.4.1.1.9.5.1",
    ),
    (
        "RespiratoryWaveformStorage",
        "Respiratory Waveform Storage",
        "1.2.840.10008.5.1.4.1.1.9.6.1",
    ),
    (
        "MultichannelRespiratoryWaveformStorage",
        "Multi-channel Respiratory Waveform Storage",
        "1.2.840.10008.5.1.4.1.1.9.6.2",
    ),
];

/// The storage classes, part 2 of 5.
static CLASSES_2: [KnownUid; 33] = [
    (
        "RoutineScalpElectroencephalogramWaveformStorage",
        "Routine Scalp Electroencephalogram Waveform Storage",
        "1.2.840.10008.5.1.4.1.1.9.7.1",
    ),
    (
        "ElectromyogramWaveformStorage",
        "Electromyogram Waveform Storage",
        "1.2.840.10008.5.1.4.1.1.9.7.2",
    ),
    (
        "ElectrooculogramWaveformStorage",
        "Electrooculogram Waveform Storage",
        "1.2.840.10008.5.1.4.1.1.9.7.3",
    ),
    (
        "SleepElectroencephalogramWaveformStorage",
        "Sleep Electroencephalogram Waveform Storage",
        "1.2.840.10008.5.1.4.1.1.9.7.4",
    ),
    (
        "BodyPositionWaveformStorage",
        "Body Position Waveform Storage",
        "1.2.840.10008.5.1.4.1.1.9.8.1",
    ),
    (
        "GrayscaleSoftcopyPresentationStateStorage",
        "Grayscale Softcopy Presentation State Storage",
        "1.2.840.10008.5.1.4.1.1.11.1",
    ),
    (
        "ColorSoftcopyPresentationStateStorage",
        "Color Softcopy Presentation State Storage",
        "1.2.840.10008.5.1.4.1.1.11.2",
    ),
    (
        "PseudoColorSoftcopyPresentationStateStorage",
        "Pseudo-Color Softcopy Presentation State Storage",
        "1.2.840.10008.5.1.4.1.1.11.3",
    ),
    (
        "BlendingSoftcopyPresentationStateStorage",
        "Blending Softcopy Presentation State Storage",
        "1.2.840.10008.5.1.4.1.1.11.4",
    ),
    (
        "XAXRFGrayscaleSoftcopyPresentationStateStorage",
        "XA/XRF Grayscale Softcopy Presentation State Storage",
        "1.2.840.10008.5.1.4.1.1.11.5",
    ),
    (
        "GrayscalePlanarMPRVolumetricPresentationStateStorage",
        "Grayscale Planar MPR Volumetric Presentation State Storage",
        "1.2.840.10008.5.1.4.1.1.11.6",
    ),
    (
        "CompositingPlanarMPRVolumetricPresentationStateStorage",
        "Compositing Planar MPR Volumetric Presentation State Storage",
        "1.2.840.10008.5.1.4.1.1.11.7",
    ),
    (
        "AdvancedBlendingPresentationStateStorage",
        "Advanced Blending Presentation State Storage",
        "1.2.840.10008.5.1.4.1.1.11.8",
    ),
    (
        "VolumeRenderingVolumetricPresentationStateStorage",
        "Volume Rendering Volumetric Presentation State Storage",
        "1.2.840.10008.5.1.4.1.1.11.9",
    ),
    (
        "SegmentedVolumeRenderingVolumetricPresentationStateStorage",
        "Segmented Volume Rendering Volumetric Presentation State Storage",
        "1.2.840.10008.5.1.4.1.1.11.10",
    ),
    (
        "MultipleVolumeRenderingVolumetricPresentationStateStorage",
        "Multiple Volume Rendering Volumetric Presentation State Storage",
        "1.2.840.10008.5.1.4.1.1.11.11",
    ),
    (
        "XRayAngiographicImageStorage",
        "X-Ray Angiographic Image Storage",
        "1.2.840.10008.5.1.4.1.1.12.1",
    ),
    (
        "EnhancedXAImageStorage",
        "Enhanced XA Image Storage",
        "1.2.840.10008.5.1.4.1.1.12.1.1",
    ),
    (
        "XRayRadiofluoroscopicImageStorage",
        "X-Ray Radiofluoroscopic Image Storage",
        "1.2.840.10008.5.1.4.1.1.12.2",
    ),
    (
        "EnhancedXRFImageStorage",
        "Enhanced XRF Image Storage",
        "1.2.840.10008.5.1.4.1.1.12.2.1",
    ),
    (
        "XRay3DAngiographicImageStorage",
        "X-Ray 3D Angiographic Image Storage",
        "1.2.840.10008.5.1.4.1.1.13.1.1",
    ),
    (
        "XRay3DCraniofacialImageStorage",
        "X-Ray 3D Craniofacial Image Storage",
        "1.2.840.10008.5.1.4.1.1.13.1.2",
    ),
    (
        "BreastTomosynthesisImageStorage",
        "Breast Tomosynthesis Image Storage",
        "1.2.840.10008.5.1.4.1.1.13.1.3",
    ),
    (
        "BreastProjectionXRayImageStorageForPresentation",
        "Breast Projection X-Ray Image Storage - For Presentation",
        "1.2.840.10008.5.1.4.1.1.13.1.4",
    ),
    (
        "BreastProjectionXRayImageStorageForProcessing",
        "Breast Projection X-Ray Image Storage - For Processing",
        "1.2.840.10008.5.1.4.1.1.13.1.5",
    ),
    (
        "IntravascularOpticalCoherenceTomographyImageStorageForPresentation",
        "Intravascular Optical Coherence Tomography Image Storage - For Presentation",
        "1.2.840.10008.5.1.4.1.1.14.1",
    ),
    (
        "IntravascularOpticalCoherenceTomographyImageStorageForProcessing",
        "Intravascular Optical Coherence Tomography Image Storage - For Processing",
        "1.2.840.10008.5.1.4.1.1.14.2",
    ),
    (
        "NuclearMedicineImageStorage",
        "Nuclear Medicine Image Storage",
        "1.2.840.10008.5.1.4.1.1.20",
    ),
    (
        "ParametricMapStorage",
        "Parametric Map Storage",
        "1.2.840.10008.5.1.4.1.1.30",
    ),
    (
        "RawDataStorage",
        "Raw Data Storage",
        "1.2.840.10008.5.1.4.1.1.66",
    ),
    (
        "SpatialRegistrationStorage",
        "Spatial Registration Storage",
        "1.2.840.10008.5.1.4.1.1.66.1",
    ),
    (
        "SpatialFiducialsStorage",
        "Spatial Fiducials Storage",
        "1.2.840.10008.5.1.4.1.1.66.2",
    ),
    (
        "DeformableSpatialRegistrationStorage",
        "Deformable Spatial Registration Storage",
        "1.2.840.10008.5.1.4.1.1.66.3",
    ),
];

/// The storage classes, part 3 of 5.
static CLASSES_3: [KnownUid; 33] = [
    (
        "SegmentationStorage",
        "Segmentation Storage",
        "1.2.840.10008.5.1.4.1.1.66.4",
    ),
    (
        "SurfaceSegmentationStorage",
        "Surface Segmentation Storage",
        "1.2.840.10008.5.1.4.1.1.66.5",
    ),
    (
        "TractographyResultsStorage",
        "Tractography Results Storage",
        "1.2.840.10008.5.1.4.1.1.66.6",
    ),
    (
        "RealWorldValueMappingStorage",
        "Real World Value Mapping Storage",
        "1.2.840.10008.5.1.4.1.1.67",
    ),
    (
        "SurfaceScanMeshStorage",
        "Surface Scan Mesh Storage",
        "1.2.840.10008.5.1.4.1.1.68.1",
    ),
    (
        "SurfaceScanPointCloudStorage",
        "Surface Scan Point Cloud Storage",
        "1.2.840.10008.5.1.4.1.1.68.2",
    ),
    (
        "VLEndoscopicImageStorage",
        "VL Endoscopic Image Storage",
        "1.2.840.10008.5.1.4.1.1.77.1.1",
    ),
    (
        "VideoEndoscopicImageStorage",
        "Video Endoscopic Image Storage",
        "1.2.840.10008.5.1.4.1.1.77.1.1.1",
    ),
    (
        "VLMicroscopicImageStorage",
        "VL Microscopic Image Storage",
        "1.2.840.10008.5.1.4.1.1.77.1.2",
    ),
    (
        "VideoMicroscopicImageStorage",
        "Video Microscopic Image Storage",
        "1.2.840.10008.5.1.4.1.1.77.1.2.1",
    ),
    (
        "VLSlideCoordinatesMicroscopicImageStorage",
        "VL Slide-Coordinates Microscopic Image Storage",
        "1.2.840.10008.5.1.4.1.1.77.1.3",
    ),
    (
        "VLPhotographicImageStorage",
        "VL Photographic Image Storage",
        "1.2.840.10008.5.1.4.1.1.77.1.4",
    ),
    (
        "VideoPhotographicImageStorage",
        "Video Photographic Image Storage",
        "1.2.840.10008.5.1.4.1.1.77.1.4.1",
    ),
    (
        "OphthalmicPhotography8BitImageStorage",
        "Ophthalmic Photography 8 Bit Image Storage",
        "1.2.840.10008.5.1.4.1.1.77.1.5.1",
    ),
    (
        "OphthalmicPhotography16BitImageStorage",
        "Ophthalmic Photography 16 Bit Image Storage",
        "1.2.840.10008.5.1.4.1.1.77.1.5.2",
    ),
    (
        "StereometricRelationshipStorage",
        "Stereometric Relationship Storage",
        "1.2.840.10008.5.1.4.1.1.77.1.5.3",
    ),
    (
        "OphthalmicTomographyImageStorage",
        "Ophthalmic Tomography Image Storage",
        "1.2.840.10008.5.1.4.1.1.77.1.5.4",
    ),
    (
        "WideFieldOphthalmicPhotographyStereographicProjectionImageStorage",
        "Wide Field Ophthalmic Photography Stereographic Projection Image Storage",
        "1.2.840.10008.5.1.4.1.1.77.1.5.5",
    ),
    (
        "WideFieldOphthalmicPhotography3DCoordinatesImageStorage",
        "Wide Field Ophthalmic Photography 3D Coordinates Image Storage",
        "1.2.840.10008.5.1.4.1.1.77.1.5.6",
    ),
    (
        "OphthalmicOpticalCoherenceTomographyEnFaceImageStorage",
        "Ophthalmic Optical Coherence Tomography En Face Image Storage",
        "1.2.840.10008.5.1.4.1.1.77.1.5.7",
    ),
    (
        "OphthalmicOpticalCoherenceTomographyBscanVolumeAnalysisStorage",
        "Ophthalmic Optical Coherence Tomography B-scan Volume Analysis Storage",
        "1.2.840.10008.5.1.4.1.1.77.1.5.8",
    ),
    (
        "VLWholeSlideMicroscopyImageStorage",
        "VL Whole Slide Microscopy Image Storage",
        "1.2.840.10008.5.1.4.1.1.77.1.6",
    ),
    (
        "DermoscopicPhotographyImageStorage",
        "Dermoscopic Photography Image Storage",
        "1.2.840.10008.5.1.4.1.1.77.1.7",
    ),
    (
        "LensometryMeasurementsStorage",
        "Lensometry Measurements Storage",
        "1.2.840.10008.5.1.4.1.1.78.1",
    ),
    (
        "AutorefractionMeasurementsStorage",
        "Autorefraction Measurements Storage",
        "1.2.840.10008.5.1.4.1.1.78.2",
    ),
    (
        "KeratometryMeasurementsStorage",
        "Keratometry Measurements Storage",
        "1.2.840.10008.5.1.4.1.1.78.3",
    ),
    (
        "SubjectiveRefractionMeasurementsStorage",
        "Subjective Refraction Measurements Storage",
        "1.2.840.10008.5.1.4.1.1.78.4",
    ),
    (
        "VisualAcuityMeasurementsStorage",
        "Visual Acuity Measurements Storage",
        "1.2.840.10008.5.1.4.1.1.78.5",
    ),
    (
        "SpectaclePrescriptionReportStorage",
        "Spectacle Prescription Report Storage",
        "1.2.840.10008.5.1.4.1.1.78.6",
    ),
    (
        "OphthalmicAxialMeasurementsStorage",
        "Ophthalmic Axial Measurements Storage",
        "1.2.840.10008.5.1.4.1.1.78.7",
    ),
    (
        "IntraocularLensCalculationsStorage",
        "Intraocular Lens Calculations Storage",
        "1.2.840.10008.5.1.4.1.1.78.8",
    ),
    (
        "MacularGridThicknessAndVolumeReportStorage",
        "Macular Grid Thickness and Volume Report Storage",
        "1.2.840.10008.5.1.4.1.1.79.1",
    ),
    (
        "OphthalmicVisualFieldStaticPerimetryMeasurementsStorage",
        "Ophthalmic Visual Field Static Perimetry Measurements Storage",
        "1.2.840.10008.5.1.4.1.1.80.1",
    ),
];

/// The storage classes, part 4 of 5.
static CLASSES_4: [KnownUid; 33] = [
    (
        "OphthalmicThicknessMapStorage",
        "Ophthalmic Thickness Map Storage",
        "1.2.840.10008.5.1.4.1.1.81.1",
    ),
    (
        "CornealTopographyMapStorage",
        "Corneal Topography Map Storage",
        "1.2.840.10008.5.1.4.1.1.82.1",
    ),
    (
        "BasicTextSRStorage",
        "Basic Text SR Storage",
        "1.2.840.10008.5.1.4.1.1.88.11",
    ),
    (
        "EnhancedSRStorage",
        "Enhanced SR Storage",
        "1.2.840.10008.5.1.4.1.1.88.22",
    ),
    (
        "ComprehensiveSRStorage",
        "Comprehensive SR Storage",
        "1.2.840.10008.5.1.4.1.1.88.33",
    ),
    (
        "Comprehensive3DSRStorage",
        "Comprehensive 3D SR Storage",
        "1.2.840.10008.5.1.4.1.1.88.34",
    ),
    (
        "ExtensibleSRStorage",
        "Extensible SR Storage",
        "1.2.840.10008.5.1.4.1.1.88.35",
    ),
    (
        "ProcedureLogStorage",
        "Procedure Log Storage",
        "1.2.840.10008.5.1.4.1.1.88.40",
    ),
    (
        "MammographyCADSRStorage",
        "Mammography CAD SR Storage",
        "1.2.840.10008.5.1.4.1.1.88.50",
    ),
    (
        "KeyObjectSelectionDocumentStorage",
        "Key Object Selection Document Storage",
        "1.2.840.10008.5.1.4.1.1.88.59",
    ),
    (
        "ChestCADSRStorage",
        "Chest CAD SR Storage",
        "1.2.840.10008.5.1.4.1.1.88.65",
    ),
    (
        "XRayRadiationDoseSRStorage",
        "X-Ray Radiation Dose SR Storage",
        "1.2.840.10008.5.1.4.1.1.88.67",
    ),
    (
        "RadiopharmaceuticalRadiationDoseSRStorage",
        "Radiopharmaceutical Radiation Dose SR Storage",
        "1.2.840.10008.5.1.4.1.1.88.68",
    ),
    (
        "ColonCADSRStorage",
        "Colon CAD SR Storage",
        "1.2.840.10008.5.1.4.1.1.88.69",
    ),
    (
        "ImplantationPlanSRStorage",
        "Implantation Plan SR Storage",
        "1.2.840.10008.5.1.4.1.1.88.70",
    ),
    (
        "AcquisitionContextSRStorage",
        "Acquisition Context SR Storage",
        "1.2.840.10008.5.1.4.1.1.88.71",
    ),
    (
        "SimplifiedAdultEchoSRStorage",
        "Simplified Adult Echo SR Storage",
        "1.2.840.10008.5.1.4.1.1.88.72",
    ),
    (
        "PatientRadiationDoseSRStorage",
        "Patient Radiation Dose SR Storage",
        "1.2.840.10008.5.1.4.1.1.88.73",
    ),
    (
        "PlannedImagingAgentAdministrationSRStorage",
        "Planned Imaging Agent Administration SR Storage",
        "1.2.840.10008.5.1.4.1.1.88.74",
    ),
    (
        "PerformedImagingAgentAdministrationSRStorage",
        "Performed Imaging Agent Administration SR Storage",
        "1.2.840.10008.5.1.4.1.1.88.75",
    ),
    (
        "EnhancedXRayRadiationDoseSRStorage",
        "Enhanced X-Ray Radiation Dose SR Storage",
        "1.2.840.10008.5.1.4.1.1.88.76",
    ),
    (
        "ContentAssessmentResultsStorage",
        "Content Assessment Results Storage",
        "1.2.840.10008.5.1.4.1.1.90.1",
    ),
    (
        "MicroscopyBulkSimpleAnnotationsStorage",
        "Microscopy Bulk Simple Annotations Storage",
        "1.2.840.10008.5.1.4.1.1.91.1",
    ),
    (
        "EncapsulatedPDFStorage",
        "Encapsulated PDF Storage",
        "1.2.840.10008.5.1.4.1.1.104.1",
    ),
    (
        "EncapsulatedCDAStorage",
        "Encapsulated CDA Storage",
        "1.2.840.10008.5.1.4.1.1.104.2",
    ),
    (
        "EncapsulatedSTLStorage",
        "Encapsulated STL Storage",
        "1.2.840.10008.5.1.4.1.1.104.3",
    ),
    (
        "EncapsulatedOBJStorage",
        "Encapsulated OBJ Storage",
        "1.2.840.10008.5.1.4.1.1.104.4",
    ),
    (
        "EncapsulatedMTLStorage",
        "Encapsulated MTL Storage",
        "1.2.840.10008.5.1.4.1.1.104.5",
    ),
    (
        "PositronEmissionTomographyImageStorage",
        "Positron Emission Tomography Image Storage",
        "1.2.840.10008.5.1.4.1.1.128",
    ),
    (
        "LegacyConvertedEnhancedPETImageStorage",
        "Legacy Converted Enhanced PET Image Storage",
        "1.2.840.10008.5.1.4.1.1.128.1",
    ),
    (
        "EnhancedPETImageStorage",
        "Enhanced PET Image Storage",
        "1.2.840.10008.5.1.4.1.1.130",
    ),
    (
        "BasicStructuredDisplayStorage",
        "Basic Structured Display Storage",
        "1.2.840.10008.5.1.4.1.1.131",
    ),
    (
        "CTDefinedProcedureProtocolStorage",
        "CT Defined Procedure Protocol Storage",
        "1.2.840.10008.5.1.4.1.1.200.1",
    ),
];

/// The storage classes, part 5 of 5.
static CLASSES_5: [KnownUid; 33] = [
    (
        "CTPerformedProcedureProtocolStorage",
        "CT Performed Procedure Protocol Storage",
        "1.2.840.10008.5.1.4.1.1.200.2",
    ),
    (
        "ProtocolApprovalStorage",
        "Protocol Approval Storage",
        "1.2.840.10008.5.1.4.1.1.200.3",
    ),
    (
        "XADefinedProcedureProtocolStorage",
        "XA Defined Procedure Protocol Storage",
        "1.2.840.10008.5.1.4.1.1.200.7",
    ),
    (
        "XAPerformedProcedureProtocolStorage",
        "XA Performed Procedure Protocol Storage",
        "1.2.840.10008.5.1.4.1.1.200.8",
    ),
    (
        "RTImageStorage",
        "RT Image Storage",
        "1.2.840.10008.5.1.4.1.1.481.1",
    ),
    (
        "RTDoseStorage",
        "RT Dose Storage",
        "1.2.840.10008.5.1.4.1.1.481.2",
    ),
    (
        "RTStructureSetStorage",
        "RT Structure Set Storage",
        "1.2.840.10008.5.1.4.1.1.481.3",
    ),
    (
        "RTBeamsTreatmentRecordStorage",
        "RT Beams Treatment Record Storage",
        "1.2.840.10008.5.1.4.1.1.481.4",
    ),
    (
        "RTPlanStorage",
        "RT Plan Storage",
        "1.2.840.10008.5.1.4.1.1.481.5",
    ),
    (
        "RTBrachyTreatmentRecordStorage",
        "RT Brachy Treatment Record Storage",
        "1.2.840.10008.5.1.4.1.1.481.6",
    ),
    (
        "RTTreatmentSummaryRecordStorage",
        "RT Treatment Summary Record Storage",
        "1.2.840.10008.5.1.4.1.1.481.7",
    ),
    (
        "RTIonPlanStorage",
        "RT Ion Plan Storage",
        "1.2.840.10008.5.1.4.1.1.481.8",
    ),
    (
        "RTIonBeamsTreatmentRecordStorage",
        "RT Ion Beams Treatment Record Storage",
        "1.2.840.10008.5.1.4.1.1.481.9",
    ),
    (
        "RTPhysicianIntentStorage",
        "RT Physician Intent Storage",
        "1.2.840.10008.5.1.4.1.1.481.10",
    ),
    (
        "RTSegmentAnnotationStorage",
        "RT Segment Annotation Storage",
        "1.2.840.10008.5.1.4.1.1.481.11",
    ),
    (
        "RTRadiationSetStorage",
        "RT Radiation Set Storage",
        "1.2.840.10008.5.1.4.1.1.481.12",
    ),
    (
        "CArmPhotonElectronRadiationStorage",
        "C-Arm Photon-Electron Radiation Storage",
        "1.2.840.10008.5.1.4.1.1.481.13",
    ),
    (
        "TomotherapeuticRadiationStorage",
        "Tomotherapeutic Radiation Storage",
        "1.2.840.10008.5.1.4.1.1.481.14",
    ),
    (
        "RoboticArmRadiationStorage",
        "Robotic-Arm Radiation Storage",
        "1.2.840.10008.5.1.4.1.1.481.15",
    ),
    (
        "RTRadiationRecordSetStorage",
        "RT Radiation Record Set Storage",
        "1.2.840.10008.5.1.4.1.1.481.16",
    ),
    (
        "RTRadiationSalvageRecordStorage",
        "RT Radiation Salvage Record Storage",
        "1.2.840.10008.5.1.4.1.1.481.17",
    ),
    (
        "TomotherapeuticRadiationRecordStorage",
        "Tomotherapeutic Radiation Record Storage",
        "1.2.840.10008.5.1.4.1.1.481.18",
    ),
    (
        "CArmPhotonElectronRadiationRecordStorage",
        "C-Arm Photon-Electron Radiation Record Storage",
        "1.2.840.10008.5.1.4.1.1.481.19",
    ),
    (
        "RoboticRadiationRecordStorage",
        "Robotic Radiation Record Storage",
        "1.2.840.10008.5.1.4.1.1.481.20",
    ),
    (
        "RTRadiationSetDeliveryInstructionStorage",
        "RT Radiation Set Delivery Instruction Storage",
        "1.2.840.10008.5.1.4.1.1.481.21",
    ),
    (
        "RTTreatmentPreparationStorage",
        "RT Treatment Preparation Storage",
        "1.2.840.10008.5.1.4.1.1.481.22",
    ),
    (
        "RTBeamsDeliveryInstructionStorage",
        "RT Beams Delivery Instruction Storage",
        "1.2.840.10008.5.1.4.34.7",
    ),
    (
        "RTBrachyApplicationSetupDeliveryInstructionStorage",
        "RT Brachy Application Setup Delivery Instruction Storage",
        "1.2.840.10008.5.1.4.34.10",
    ),
    (
        "HangingProtocolStorage",
        "Hanging Protocol Storage",
        "1.2.840.10008.5.1.4.38.1",
    ),
    (
        "ColorPaletteStorage",
        "Color Palette Storage",
        "1.2.840.10008.5.1.4.39.1",
    ),
    (
        "GenericImplantTemplateStorage",
        "Generic Implant Template Storage",
        "1.2.840.10008.5.1.4.43.1",
    ),
    (
        "ImplantAssemblyTemplateStorage",
        "Implant Assembly Template Storage",
        "1.2.840.10008.5.1.4.44.1",
    ),
    (
        "ImplantTemplateGroupStorage",
        "Implant Template Group Storage",
        "1.2.840.10008.5.1.4.45.1",
    ),
];

/// The table of part 1.
pub fn classes_1() -> &'static [KnownUid]
    ensures { map entry result.now ≡ classes_1 }
{
    &CLASSES_1
}

/// The table of part 2.
pub fn classes_2() -> &'static [KnownUid]
    ensures { map entry result.now ≡ classes_2 }
{
    &CLASSES_2
}

/// The table of part 3.
pub fn classes_3() -> &'static [KnownUid]
    ensures { map entry result.now ≡ classes_3 }
{
    &CLASSES_3
}

/// The table of part 4.
pub fn classes_4() -> &'static [KnownUid]
    ensures { map entry result.now ≡ classes_4 }
{
    &CLASSES_4
}

/// The table of part 5.
pub fn classes_5() -> &'static [KnownUid]
    ensures { map entry result.now ≡ classes_5 }
{
    &CLASSES_5
}
